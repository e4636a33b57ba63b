//! The headers of model files, and the titles of their sections: no other module here has them. The print of one block is written
//! out, so that the macros are compared with a text that was written manually.

/// What the pipe form prints for one block of ore with a mill.
pub const PRINTED: &str =
    "== blocks\n0 0 0 0 1000 5000 0\n== prec\n0 0\n== upit\nNAME: one\nTYPE: UPIT\nNBLOCKS: 1\nOBJECTIVE_FUNCTION:\n0 12000\n== pcpsp\nNAME: one\nTYPE: PCPSP\nNBLOCKS: 1\nNPERIODS: 1\nNDESTINATIONS: 1\nNRESOURCE_SIDE_CONSTRAINTS: 0\nNGENERAL_SIDE_CONSTRAINTS: 0\nDISCOUNT_RATE: 0.1\nOBJECTIVE_FUNCTION:\n0 12000\nRESOURCE_CONSTRAINT_COEFFICIENTS:\nRESOURCE_CONSTRAINT_LIMITS:\n== cpit\nNAME: one\nTYPE: CPIT\nNBLOCKS: 1\nNPERIODS: 1\nNRESOURCE_SIDE_CONSTRAINTS: 0\nDISCOUNT_RATE: 0.1\nOBJECTIVE_FUNCTION:\n0 12000\nRESOURCE_CONSTRAINT_COEFFICIENTS:\nRESOURCE_CONSTRAINT_LIMITS:\n";

// The text of a UPIT, from the values of its header and the lines of its section.
macro_rules! upit {
    {
        name: $name:literal,
        blocks: $blocks:literal,
        values: [$($value:literal),*] $(,)?
    } => {
        concat!(
            "NAME: ", $name, "\n",
            "TYPE: UPIT\n",
            "NBLOCKS: ", $blocks, "\n",
            "OBJECTIVE_FUNCTION:\n", $($value, "\n",)*
        )
    };
}

// The text of a PCPSP.
macro_rules! pcpsp {
    {
        name: $name:literal,
        blocks: $blocks:literal,
        periods: $periods:literal,
        destinations: $destinations:literal,
        resources: $resources:literal,
        rate: $rate:literal,
        values: [$($value:literal),*],
        coefs: [$($coef:literal),*],
        limits: [$($limit:literal),*] $(,)?
    } => {
        concat!(
            "NAME: ", $name, "\n",
            "TYPE: PCPSP\n",
            "NBLOCKS: ", $blocks, "\n",
            "NPERIODS: ", $periods, "\n",
            "NDESTINATIONS: ", $destinations, "\n",
            "NRESOURCE_SIDE_CONSTRAINTS: ", $resources, "\n",
            "NGENERAL_SIDE_CONSTRAINTS: 0\n",
            "DISCOUNT_RATE: ", $rate, "\n",
            "OBJECTIVE_FUNCTION:\n", $($value, "\n",)*
            "RESOURCE_CONSTRAINT_COEFFICIENTS:\n", $($coef, "\n",)*
            "RESOURCE_CONSTRAINT_LIMITS:\n", $($limit, "\n",)*
        )
    };
}

// The text of a CPIT.
macro_rules! cpit {
    {
        name: $name:literal,
        blocks: $blocks:literal,
        periods: $periods:literal,
        resources: $resources:literal,
        rate: $rate:literal,
        values: [$($value:literal),*],
        coefs: [$($coef:literal),*],
        limits: [$($limit:literal),*] $(,)?
    } => {
        concat!(
            "NAME: ", $name, "\n",
            "TYPE: CPIT\n",
            "NBLOCKS: ", $blocks, "\n",
            "NPERIODS: ", $periods, "\n",
            "NRESOURCE_SIDE_CONSTRAINTS: ", $resources, "\n",
            "DISCOUNT_RATE: ", $rate, "\n",
            "OBJECTIVE_FUNCTION:\n", $($value, "\n",)*
            "RESOURCE_CONSTRAINT_COEFFICIENTS:\n", $($coef, "\n",)*
            "RESOURCE_CONSTRAINT_LIMITS:\n", $($limit, "\n",)*
        )
    };
}

pub(crate) use cpit;
pub(crate) use pcpsp;
pub(crate) use upit;
