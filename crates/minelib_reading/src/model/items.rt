//! The lines of values and of coefficients in a model file.

ghost use Rattle.std.specs.Prelude.{◌≡◌, ◌≤◌, ◌<◌, ◌+◌, [], length, IfOk, OnOk};
ghost use Rattle.mine_instance.specs.Order.{coef_before};
ghost use Rattle.text_lines.specs.FieldValues.{Takes, all_by};
ghost use Rattle.text_lines.specs.StatedFields.{decimal_in};
ghost use Rattle.minelib_reading.specs.ModelDraft.{is_after, last_of};
ghost use Rattle.minelib_reading.specs.LineFields.{item_in};
ghost use Rattle.minelib_reading.specs.LineForms.{coef_form};
ghost use Rattle.minelib_reading.specs.ModelText.{coef_stated, coef_width, values_stated};
ghost use Rattle.text_lines.specs.Reading.{Leaves};
ghost use Rattle.text_lines.specs.TextLines.{fields_of};
ghost use Rattle.minelib_reading.specs.inner.LinesTaken.{destination_in};
ghost use Rattle.plan_parts.specs.declared.ranges.TheConstants.{MAX_BLOCKS};

use mine_instance::coefs::coef::Coef;
use minelib_lines::problem::Problem;
use pit_units::{Dec, OrMemory};
use text_lines::text_fault::TextKind;
use text_lines::text_fields::{fault_kind_of_line, first_integer, first_millionths, has_field};

/// Reads the values of a block, one for each destination, into `row`, from a line after `before` others. After an error `row` is
/// unspecified.
///
/// # Errors
///
/// - `Fault`: with `Fields`, the kind of the first invalid field, or `Order` if the line is of another block.
/// - `OutOfMemory`: `row` could not grow.
pub fn values_of_line(
    blocks: usize,
    destinations: u8,
    before: usize,
    line: &[u8],
    row: &mut Vec<Dec>,
) -> Result<(), OrMemory<TextKind>>
    ensures value { Leaves row.new.items result
        (values_stated blocks destinations before (fields_of line.now)) }
    ensures width { OnOk result (length row.new.items ≡ destinations) }
    ensures room { OnOk result (before < blocks) }
{
    match uncounted_values(blocks, destinations, before, line, row) {
        Ok(()) => Ok(()),
        Err(OrMemory::Fault(kind)) => {
            let width = usize::from(destinations) + 1;
            Err(OrMemory::Fault(fault_kind_of_line(line, width, kind)))
        }
        Err(OrMemory::OutOfMemory) => Err(OrMemory::OutOfMemory),
    }
}

// Reads the values of a line that has the required number of fields. For other lines, the kind of the fault may differ.
#[tactic(auto, using(crate::proofs::counts::LaterLines::values_counted))]
fn uncounted_values(
    blocks: usize,
    destinations: u8,
    before: usize,
    line: &[u8],
    row: &mut Vec<Dec>,
) -> Result<(), OrMemory<TextKind>>
    ensures counted { OnOk result (length (fields_of line.now) ≡ destinations + 1) }
    ensures value { length (fields_of line.now) ≡ destinations + 1 → Leaves row.new.items result
        (values_stated blocks destinations before (fields_of line.now)) }
    ensures width { OnOk result (length row.new.items ≡ destinations) }
    ensures room { OnOk result (before < blocks) }
{
    let (b, values) = first_integer(line, blocks as u64)?;
    read_decimals(values, usize::from(destinations), row)?;
    if b != before as u64 {
        return Err(OrMemory::Fault(TextKind::Order));
    }
    Ok(())
}

// Reads all decimals of a line with `count` fields.
fn read_decimals(line: &[u8], count: usize, row: &mut Vec<Dec>) -> Result<(), OrMemory<TextKind>>
    ensures counted { OnOk result (length (fields_of line.now) ≡ count) }
    ensures value { length (fields_of line.now) ≡ count → Leaves row.new.items result
        (all_by decimal_in [] (fields_of line.now)) }
    ensures width { OnOk result (length row.new.items ≡ count) }
{
    row.clear();
    let mut rest = line;
    while row.len() < count {
        let (value, following) = first_millionths(rest)?;
        row.push(Dec::new(value).unwrap())?;
        rest = following;
    }
    if has_field(rest) {
        return Err(OrMemory::Fault(TextKind::Fields));
    }
    Ok(())
}

/// Returns the coefficient of a line, for these numbers of blocks, destinations and resources.
///
/// # Errors
///
/// `Fields`, or the kind of the first invalid field.
#[inline(always)]
#[tactic(auto, using(crate::proofs::counts::LaterLines::coef_counted, crate::proofs::counts::LaterLines::coef_kind))]
pub fn coef_of_line(
    problem: Problem,
    blocks: usize,
    destinations: u8,
    resources: u8,
    line: &[u8],
) -> Result<Coef, TextKind>
    requires { blocks ≤ MAX_BLOCKS }
    ensures value { result ≡ coef_stated problem blocks destinations resources (fields_of line.now) }
    ensures block { IfOk result (λ coef. coef.b < MAX_BLOCKS) }
    ensures destination { IfOk result (λ coef. coef.d < 256) }
    ensures resource { IfOk result (λ coef. coef.r < 256) }
{
    match uncounted_coef(problem, blocks, destinations, resources, line) {
        Ok(coef) => Ok(coef),
        Err(kind) => Err(fault_kind_of_line(line, coef_width(problem), kind)),
    }
}

// Returns the coefficient of a line that has the required number of fields. For other lines, the kind of the fault may differ.
#[inline(always)]
#[tactic(auto, using(crate::proofs::counts::LaterLines::coef_read))]
fn uncounted_coef(
    problem: Problem,
    blocks: usize,
    destinations: u8,
    resources: u8,
    line: &[u8],
) -> Result<Coef, TextKind>
    requires { blocks ≤ MAX_BLOCKS }
    ensures value { result
        ≡ item_in (coef_form problem blocks destinations resources) (fields_of line.now) }
    ensures block { IfOk result (λ coef. coef.b < MAX_BLOCKS) }
    ensures destination { IfOk result (λ coef. coef.d < 256) }
    ensures resource { IfOk result (λ coef. coef.r < 256) }
{
    let (b, after_b) = first_integer(line, blocks as u64)?;
    let (d, after_d) = destination_in(problem, destinations, after_b)?;
    let (r, after_r) = first_integer(after_d, u64::from(resources))?;
    let (v, after_v) = first_millionths(after_r)?;
    if has_field(after_v) {
        return Err(TextKind::Fields);
    }
    Ok(Coef {
        b: b as u32,
        d: d as u8,
        r: r as u8,
        v: Dec::new(v).unwrap(),
    })
}

fn coef_width(problem: Problem) -> usize
    ensures { result ≡ coef_width problem }
{
    match problem {
        Problem::Pcpsp => 4,
        Problem::Cpit => 3,
    }
}

// Returns the destination of a coefficient, and the fields after it. A CPIT has no such field, since it has one destination.
#[inline(always)]
fn destination_in(problem: Problem, destinations: u8, line: &[u8]) -> Result<(u64, &[u8]), TextKind>
    ensures value { Takes result (destination_in problem destinations (fields_of line.now)) }
    ensures below { IfOk result (λ x. x.0 < 256) }
{
    match problem {
        Problem::Pcpsp => first_integer(line, u64::from(destinations)),
        Problem::Cpit => Ok((0, line)),
    }
}

/// Returns whether the coefficient follows the last of others.
pub fn is_coef_after(coefs: &[Coef], coef: &Coef) -> bool
    ensures { result ≡ is_after coef_before (last_of coefs.now) coef.now }
{
    match coefs.last() {
        Some(last) => last.comes_before(coef),
        None => true,
    }
}
