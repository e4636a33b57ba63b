//! The lines of coefficients. The coefficients of a group have the same tonnes, and mostly the same as the next group. So the end of a
//! line, with the tonnes, is written once.

ghost use Rattle.std.specs.Prelude.{◌≡◌, ◌+◌, ◌<◌, ◌≤◌, ◌==◌, ◌++◌, ◌∷◌, [], length, map, if◌then◌else◌, All, HoldsAt, OnOk, IfOk, decimal, take, drop};
ghost use Rattle.std.specs.List.{flat_map};
ghost use Rattle.pit_units.specs.Decimal.{shortest};
ghost use Rattle.pit_units.specs.DecimalRange.{IsInDecimalRange};
ghost use Rattle.mine_instance.specs.coefs.Groups.{coefs_in, pairs_of};
ghost use Rattle.minelib_writing.specs.Written.{cpit_coef_line};
ghost use Rattle.pit_units.specs.Line.{line_in};
ghost use Rattle.pit_units.specs.declared.scratch.TheConstants.{LINE_END};
ghost use Rattle.minelib_writing.specs.inner.CoefParts.{coef_lines, coef_part, coef_text, cpit_coef_text, FitsForm};

use crate::fields::{append_decimal_to, append_integer_to};
use crate::lines::Line;
use crate::parts::{MOST_AT_ONCE, Parted};
use mine_instance::coefs::coef::Coef;
use mine_instance::coefs::group::{CoefGroup, Pairs};
use mine_instance::coefs::list::CoefList;
use mine_instance::values::list::ValueList;
use pit_units::Dec;
use pit_units::scratch::{
    Digits, LINE_END, Scratch, append_line, write_byte, write_dec, write_digit, write_start,
};
use std::alloc::AllocError;

/// The coefficients that have a line, and the form of the line.
#[derive(Drop)]
pub enum CoefForm<'a, V> {
    /// `b d r v`, for all coefficients.
    OfAll,
    /// `b r v`, for coefficients at the first destination with the largest value of their block.
    OfChosen(&'a V),
}

/// The lines of coefficients in a form. The coefficients are requested group by group, as their lines are appended.
#[derive(Drop)]
pub struct CoefLines<'a, C: CoefList, V: ValueList> {
    pub coefs: &'a C,
    pub form: CoefForm<'a, V>,
    pub ghost fit: { All (FitsForm V.list form) (C.list coefs.now) },
}

impl<'a, C: CoefList, V: ValueList> Parted for CoefLines<'a, C, V> {
    ghost lines = { λ s. coef_lines V.list s.form (C.list s.coefs.now) };

    ghost parts = { λ s. map (coef_part V.list s.form) (C.list s.coefs.now) };

    ghost kept = { λ s n. HoldsAt (λ c. IsInDecimalRange c.v) (C.list s.coefs.now) n };

    ghost use Rattle.minelib_writing.specs.inner.CoefParts.{coef_lines_whole};

    ghost whole = { λ s. coef_lines_whole V.list s.form (C.list s.coefs.now) };

    fn len(&self) -> usize {
        self.coefs.len()
    }

    fn append(
        &self,
        index: usize,
        out: &mut Vec<u8>,
        scratch: &mut Scratch,
    ) -> Result<usize, AllocError> {
        let most = MOST_AT_ONCE.min(self.coefs.len() - index);
        let mut tonnes = self.coefs.group(index).v;
        let mut end = write_tonnes(scratch, tonnes);
        let mut count = 0;
        while count < most {
            let group = group_within(self.coefs, index + count, most - count);
            end = next_tonnes(scratch, end, tonnes, group.v);
            tonnes = group.v;
            append_group(out, scratch, end, &group, &self.form)?;
            count += group.pairs.len();
        }
        Ok(count)
    }
}

// Returns the coefficients from a position on that are available together, at most `most`.
#[inline(always)]
#[tactic(auto, using(crate::proofs::PrefixGroup::prefix_part))]
fn group_within<C: CoefList>(coefs: &C, from: usize, most: usize) -> CoefGroup<'_>
    requires there { from < length (C.list coefs.now) }
    requires some { 0 < most }
    ensures some { 0 < length (pairs_of result.pairs) }
    ensures within { from + length (pairs_of result.pairs) ≤ length (C.list coefs.now) }
    ensures few { length (pairs_of result.pairs) ≤ most }
    ensures value { coefs_in result
        ≡ take (length (pairs_of result.pairs)) (drop from (C.list coefs.now)) }
{
    let CoefGroup { b, v, pairs } = coefs.group(from);
    let pairs = prefix_of(pairs, most);
    CoefGroup { b, v, pairs }
}

// Returns the first pairs, at most `most`.
#[inline(always)]
#[tactic(auto, using(std::proofs::lemmas::List::take_min, std::proofs::lemmas::List::take_all))]
fn prefix_of(pairs: Pairs<'_>, most: usize) -> Pairs<'_>
    requires { 0 < most }
    ensures { pairs_of result ≡ take most (pairs_of pairs.entry) }
{
    match pairs {
        Pairs::Covered(pairs) => Pairs::Covered(&pairs[..most.min(pairs.len())]),
        Pairs::One(pair) => Pairs::One(pair),
    }
}

// Writes the end of a line with these tonnes.
#[inline(always)]
fn write_tonnes(scratch: &mut Scratch, tonnes: Dec) -> usize
    ensures text { line_in scratch.new result ≡ 32 ∷ (shortest tonnes ++ 10 ∷ []) }
    ensures end { (24 ≤ result) × (result ≤ LINE_END) }
    ensures kept { IsInDecimalRange tonnes }
{
    let at = write_byte(scratch, LINE_END, b'\n');
    let at = write_dec(scratch, at, tonnes);
    write_byte(scratch, at, b' ')
}

// Writes the end of a line with the tonnes of the next group, unless it has them already.
#[inline(always)]
fn next_tonnes(scratch: &mut Scratch, end: usize, before: Dec, tonnes: Dec) -> usize
    requires text { line_in scratch.old end ≡ 32 ∷ (shortest before ++ 10 ∷ []) }
    requires end { (24 ≤ end) × (end ≤ LINE_END) }
    requires kept { IsInDecimalRange before }
    ensures text { line_in scratch.new result ≡ 32 ∷ (shortest tonnes ++ 10 ∷ []) }
    ensures end { (24 ≤ result) × (result ≤ LINE_END) }
    ensures kept { IsInDecimalRange tonnes }
{
    if tonnes == before {
        return end;
    }
    write_tonnes(scratch, tonnes)
}

// Appends the lines of a group, whose tonnes are written.
#[inline(always)]
fn append_group<V: ValueList>(
    out: &mut Vec<u8>,
    scratch: &mut Scratch,
    end: usize,
    group: &CoefGroup,
    form: &CoefForm<V>,
) -> Result<(), AllocError>
    requires tonnes { line_in scratch.old end ≡ 32 ∷ (shortest group.now.v ++ 10 ∷ []) }
    requires end { (24 ≤ end) × (end ≤ LINE_END) }
    requires some { 0 < length (pairs_of group.now.pairs) }
    requires fit { All (FitsForm V.list form.now) (coefs_in group.now) }
    ensures text { OnOk result
        (out.new.items
        ≡ out.old.items ++ flat_map (coef_part V.list form.now) (coefs_in group.now)) }
    ensures end { OnOk result (line_in scratch.new end ≡ line_in scratch.old end) }
{
    match form {
        CoefForm::OfAll => append_all(out, scratch, end, group),
        CoefForm::OfChosen(values) => {
            let destination = values.of_block(group.b as usize).first_largest();
            append_at(out, scratch, end, group, destination)
        }
    }
}

// Appends the lines `b d r v` of a group.
#[inline(always)]
fn append_all(
    out: &mut Vec<u8>,
    scratch: &mut Scratch,
    end: usize,
    group: &CoefGroup,
) -> Result<(), AllocError>
    requires tonnes { line_in scratch.old end ≡ 32 ∷ (shortest group.now.v ++ 10 ∷ []) }
    requires end { (24 ≤ end) × (end ≤ LINE_END) }
    requires digits { All (λ c. (c.d < 10) × (c.r < 10)) (coefs_in group.now) }
    ensures text { OnOk result
        (out.new.items ≡ out.old.items ++ flat_map coef_text (coefs_in group.now)) }
    ensures end { OnOk result (line_in scratch.new end ≡ line_in scratch.old end) }
{
    let block = Digits::of(u64::from(group.b));
    for (d, r) in group.pairs.as_slice() {
        append_coef(out, scratch, end, &block, *d, *r)?;
    }
    Ok(())
}

// Appends the lines `b r v` for the coefficients of a group at a destination.
#[inline(always)]
fn append_at(
    out: &mut Vec<u8>,
    scratch: &mut Scratch,
    end: usize,
    group: &CoefGroup,
    destination: usize,
) -> Result<(), AllocError>
    requires tonnes { line_in scratch.old end ≡ 32 ∷ (shortest group.now.v ++ 10 ∷ []) }
    requires end { (24 ≤ end) × (end ≤ LINE_END) }
    requires digits { All (λ c. c.r < 10) (coefs_in group.now) }
    ensures text { OnOk result (out.new.items ≡ out.old.items ++ flat_map
        (λ c. if c.d == destination then cpit_coef_text c else []) (coefs_in group.now)) }
    ensures end { OnOk result (line_in scratch.new end ≡ line_in scratch.old end) }
{
    let block = Digits::of(u64::from(group.b));
    for (d, r) in group.pairs.as_slice() {
        if usize::from(*d) == destination {
            append_chosen(out, scratch, end, &block, *r)?;
        }
    }
    Ok(())
}

// Appends the line of a coefficient before its end, which is written.
#[inline(always)]
fn append_coef(
    out: &mut Vec<u8>,
    scratch: &mut Scratch,
    end: usize,
    block: &Digits,
    d: u8,
    r: u8,
) -> Result<(), AllocError>
    requires digits { (d < 10) × (r < 10) }
    requires end { (24 ≤ end) × (end ≤ LINE_END) }
    ensures text { OnOk result (out.new.items ≡ out.old.items
        ++ (block.now ++ 32 ∷ (decimal d ++ 32 ∷ (decimal r ++ line_in scratch.old end)))) }
    ensures end { OnOk result (line_in scratch.new end ≡ line_in scratch.old end) }
{
    let at = write_digit(scratch, end, r);
    let at = write_digit(scratch, at, d);
    let start = write_start(scratch, at, block);
    append_line(out, scratch, start)
}

// Appends the line of a CPIT's coefficient before its end, which is written.
#[inline(always)]
fn append_chosen(
    out: &mut Vec<u8>,
    scratch: &mut Scratch,
    end: usize,
    block: &Digits,
    r: u8,
) -> Result<(), AllocError>
    requires digit { r < 10 }
    requires end { (24 ≤ end) × (end ≤ LINE_END) }
    ensures text { OnOk result (out.new.items
        ≡ out.old.items ++ (block.now ++ 32 ∷ (decimal r ++ line_in scratch.old end))) }
    ensures end { OnOk result (line_in scratch.new end ≡ line_in scratch.old end) }
{
    let at = write_digit(scratch, end, r);
    let start = write_start(scratch, at, block);
    append_line(out, scratch, start)
}

// A stored coefficient of a CPIT: its destination is the only one, and is not written.
impl Line for Coef {
    ghost fields = { cpit_coef_line };

    ghost kept = { λ c. IsInDecimalRange c.v };

    #[tactic(auto, using(std::proofs::Common::append_assoc))]
    fn append(
        &self,
        _index: usize,
        out: &mut Vec<u8>,
        _scratch: &mut Scratch,
    ) -> Result<(), AllocError> {
        append_integer_to(out, u64::from(self.b), b' ')?;
        append_integer_to(out, u64::from(self.r), b' ')?;
        append_decimal_to(out, self.v, b'\n')
    }
}
