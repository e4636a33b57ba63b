//! The headers of model files, and the titles of their sections: no other module here has them completely. Some texts are written
//! out, so that the macros are compared with texts that were written manually.

/// The model files of two blocks with a mill and a dump, as they are written.
pub const WHOLE_UPIT: &str =
    "NAME: one\nTYPE: UPIT\nNBLOCKS: 2\nOBJECTIVE_FUNCTION:\n0 12000\n1 0\n";

pub const WHOLE_PCPSP: &str =
    "NAME: one\nTYPE: PCPSP\nNBLOCKS: 2\nNPERIODS: 2\nNDESTINATIONS: 2\nNRESOURCE_SIDE_CONSTRAINTS: 1\nNGENERAL_SIDE_CONSTRAINTS: 0\nDISCOUNT_RATE: 0.1\nOBJECTIVE_FUNCTION:\n0 12000 -2000\n1 0 0\nRESOURCE_CONSTRAINT_COEFFICIENTS:\n0 0 0 1000\nRESOURCE_CONSTRAINT_LIMITS:\n0 0 L 500.5\n0 1 I 0 900\n";

pub const WHOLE_CPIT: &str =
    "NAME: one\nTYPE: CPIT\nNBLOCKS: 2\nNPERIODS: 2\nNRESOURCE_SIDE_CONSTRAINTS: 1\nDISCOUNT_RATE: 0.1\nOBJECTIVE_FUNCTION:\n0 12000\n1 0\nRESOURCE_CONSTRAINT_COEFFICIENTS:\n0 0 1000\nRESOURCE_CONSTRAINT_LIMITS:\n0 0 L 500.5\n0 1 I 0 900\n";

// The text of a PCPSP, from the values of its header and the lines of its sections.
macro_rules! pcpsp {
    {
        name: $name:literal,
        blocks: $blocks:literal,
        periods: $periods:literal,
        destinations: $destinations:literal,
        resources: $resources:literal,
        rate: $rate:literal,
        values: [$($value:literal),*],
        coefs: [$($coef:literal),*],
        limits: [$($limit:literal),*] $(,)?
    } => {
        concat!(
            "NAME: ", $name, "\n",
            "TYPE: PCPSP\n",
            "NBLOCKS: ", $blocks, "\n",
            "NPERIODS: ", $periods, "\n",
            "NDESTINATIONS: ", $destinations, "\n",
            "NRESOURCE_SIDE_CONSTRAINTS: ", $resources, "\n",
            "NGENERAL_SIDE_CONSTRAINTS: 0\n",
            "DISCOUNT_RATE: ", $rate, "\n",
            "OBJECTIVE_FUNCTION:\n", $($value, "\n",)*
            "RESOURCE_CONSTRAINT_COEFFICIENTS:\n", $($coef, "\n",)*
            "RESOURCE_CONSTRAINT_LIMITS:\n", $($limit, "\n",)*
        )
    };
}

// The text of a CPIT.
macro_rules! cpit {
    {
        name: $name:literal,
        blocks: $blocks:literal,
        periods: $periods:literal,
        resources: $resources:literal,
        rate: $rate:literal,
        values: [$($value:literal),*],
        coefs: [$($coef:literal),*],
        limits: [$($limit:literal),*] $(,)?
    } => {
        concat!(
            "NAME: ", $name, "\n",
            "TYPE: CPIT\n",
            "NBLOCKS: ", $blocks, "\n",
            "NPERIODS: ", $periods, "\n",
            "NRESOURCE_SIDE_CONSTRAINTS: ", $resources, "\n",
            "DISCOUNT_RATE: ", $rate, "\n",
            "OBJECTIVE_FUNCTION:\n", $($value, "\n",)*
            "RESOURCE_CONSTRAINT_COEFFICIENTS:\n", $($coef, "\n",)*
            "RESOURCE_CONSTRAINT_LIMITS:\n", $($limit, "\n",)*
        )
    };
}

pub(crate) use cpit;
pub(crate) use pcpsp;
