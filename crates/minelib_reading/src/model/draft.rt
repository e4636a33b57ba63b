//! A model file whose lines are being read.

ghost use Rattle.std.specs.Prelude.{◌≡◌, ◌≤◌, Err, [], true, false, map, unwrap_or, length, IfOk};
ghost use Rattle.std.specs.List.{list_any};
ghost use Rattle.mine_instance.specs.cpit.CpitInvariant.{IsCpit};
ghost use Rattle.minelib_reading.specs.Denotes.{cpit_read, instance_read};
ghost use Rattle.minelib_reading.specs.HeaderNumbers.{count_in};
ghost use Rattle.minelib_reading.specs.ModelDraft.{blank_model, is_ready, has_all_parts, name_with};
ghost use Rattle.minelib_reading.specs.ModelText.{finish_model, item_stated, key_stated, keyed_stated, line_stated, section_stated};
ghost use Rattle.minelib_reading.specs.ModelKeys.{is_colon};
ghost use Rattle.minelib_reading.specs.inner.ModelParts.{is_name_for};
ghost use Rattle.minelib_lines.specs.declared.header_key.HeaderKey.TheVariants as key;
ghost use Rattle.minelib_reading.specs.declared.model.key.Section.TheVariants as Section;
ghost use Rattle.pit_units.specs.OrMemory.{Gives};
ghost use Rattle.text_lines.specs.Reading.{Leaves};
ghost use Rattle.text_lines.specs.TextLines.{fields_of};
ghost use Rattle.plan_parts.specs.Name.{is_name};
ghost use Rattle.plan_parts.specs.declared.ranges.TheConstants.{MAX_BLOCKS};

use crate::kept::StoredItems;
use crate::model::header::{blank_header, number_of_key};
use crate::model::items::{coef_of_line, values_of_line};
use crate::model::key::{Header, ModelKey, Section};
use crate::model::key_lines::{cut_at_colon, is_heading, is_limits, is_next, key_of, only_value};
use crate::model::limit_lines::{is_limit_after, limit_of_line};
use crate::taking::TakeItems;
use mine_instance::blocks::Blocks;
use mine_instance::coefs::coef::Coefs;
use mine_instance::cpit::Cpit;
use mine_instance::instance::Instance;
use mine_instance::limits::Limits;
use minelib_lines::header_key::HeaderKey;
use minelib_lines::problem::Problem;
use pit_units::{Dec, OrMemory};
use plan_parts::limit::Limit;
use plan_parts::name::Name;
use precedence::Preds;
use std::alloc::{AllocError, Global};
use std::marker::Model;
use text_lines::line_by_line::Admit;
use text_lines::text_fault::{LineFault, TextKind};
use text_lines::text_fields::count_fields;

/// The content of a model file's lines so far, for `blocks` blocks.
#[derive(Drop)]
pub struct ModelDraft<T: TakeItems> {
    alloc: Global,
    problem: Problem,
    blocks: usize,
    name: Option<Name>,
    header: Header,
    section: Section,
    // The values and coefficients.
    items: T,
    limits: Vec<Limit>,
    // The values of the last line of the objective.
    row: Vec<Dec>,
}

impl<T: TakeItems> Model for ModelDraft<T> {
    ghost use Rattle.std.specs.Prelude.{[], unwrap_or};
    ghost use Rattle.minelib_reading.specs.ModelDraft.{ModelDraftView};
    ghost use Rattle.minelib_reading.specs.inner.ModelFields.{KeepsModel};

    ghost Value = { ModelDraftView };

    ghost view = { λ d. record {
      problem = d.problem;
      blocks = d.blocks;
      name = unwrap_or d.name [];
      header = d.header;
      section = d.section;
      values = T.values d.items;
      coefs = T.coefs d.items;
      limits = d.limits.items;
    } };

    ghost invariant = { λ d. KeepsModel d.blocks d.header d.section (T.values d.items) };
}

impl<T: TakeItems> Admit for ModelDraft<T> {
    ghost admit_line = { line_stated };

    // A line that is read as an item of its section has no colon, so it is not searched for one.
    fn admit(&mut self, line: &[u8]) -> Result<(), OrMemory<TextKind>> {
        match self.section {
            Section::Heading => self.admit_key_or(line, TextKind::Key),
            Section::Objective => self.admit_values(line),
            Section::Coefs => self.admit_coef(line),
            Section::Limits => self.admit_limit(line),
        }
    }
}

impl<T: TakeItems + Drop> ModelDraft<T> {
    /// Makes a draft before the first line. `none` receives the values and coefficients, and must have none yet.
    pub fn new(alloc: Global, problem: Problem, blocks: usize, none: T) -> ModelDraft<T>
        requires few { blocks ≤ MAX_BLOCKS }
        requires no_values { T.values none ≡ [] }
        requires no_coefs { T.coefs none ≡ [] }
        ensures { result ≡ blank_model problem blocks }
    {
        ModelDraft {
            alloc,
            problem,
            blocks,
            name: None,
            header: blank_header(problem),
            section: Section::Heading,
            items: none,
            limits: Vec::new(alloc),
            row: Vec::new(alloc),
        }
    }

    /// Returns the draft after all lines; `end` is the number of the line after the last.
    ///
    /// # Errors
    ///
    /// `Missing`, at the line `end`: a header key, a line of values or a section is missing.
    pub fn finish(self, end: u64) -> Result<ModelDraft<T>, OrMemory<LineFault>>
        ensures { Gives (λ x. x) result (finish_model end self) }
    {
        if self.has_all_parts() {
            Ok(self)
        } else {
            Err(OrMemory::Fault(LineFault {
                line: end,
                kind: TextKind::Missing,
            }))
        }
    }
}

impl<T: TakeItems> ModelDraft<T> {
    /// Returns the number of coefficients.
    pub fn coefs_len(&self) -> usize
        ensures { result ≡ length self.now.coefs }
    {
        self.items.coefs_len()
    }

    /// Returns the number of limits.
    pub fn limits_len(&self) -> usize
        ensures { result ≡ length self.now.limits }
    {
        self.limits.len()
    }

    fn has_all_parts(&self) -> bool
        ensures { result ≡ has_all_parts self.now }
    {
        self.header.is_complete()
            && self.items.values_len() == self.blocks
            && is_limits(self.section)
    }

    // Reads a line of the section of values: the values of the next block, or the line of a key.
    #[tactic(auto, unfolding(crate::specs::ModelText::line_stated), using(crate::proofs::lines::LineFacts::values_keyless))]
    fn admit_values(&mut self, line: &[u8]) -> Result<(), OrMemory<TextKind>>
        requires { self.old.section ≡ Section.Objective }
        ensures { Leaves self.new result (line_stated self.old line.now) }
    {
        let destinations = self.destinations();
        let before = self.items.values_len();
        match values_of_line(self.blocks, destinations, before, line, &mut self.row) {
            Ok(()) => {
                self.items.take_values(&self.row)?;
                Ok(())
            }
            Err(OrMemory::Fault(kind)) => self.admit_key_or(line, kind),
            Err(OrMemory::OutOfMemory) => Err(OrMemory::OutOfMemory),
        }
    }

    // Reads a line of the section of coefficients: the next coefficient, or the line of a key.
    #[tactic(auto, unfolding(crate::specs::ModelText::line_stated), using(crate::proofs::lines::LineFacts::coef_keyless))]
    fn admit_coef(&mut self, line: &[u8]) -> Result<(), OrMemory<TextKind>>
        requires { self.old.section ≡ Section.Coefs }
        ensures { Leaves self.new result (line_stated self.old line.now) }
    {
        let destinations = self.destinations();
        let resources = self.resources();
        match coef_of_line(self.problem, self.blocks, destinations, resources, line) {
            Ok(coef) => {
                if !self.items.is_after(&coef) {
                    return Err(OrMemory::Fault(TextKind::Order));
                }
                self.items.take_coef(coef)?;
                Ok(())
            }
            Err(kind) => self.admit_key_or(line, kind),
        }
    }

    // Reads a line of the section of limits: the next limit, or the line of a key.
    #[tactic(auto, unfolding(crate::specs::ModelText::line_stated), using(crate::proofs::lines::LineFacts::limit_keyless))]
    fn admit_limit(&mut self, line: &[u8]) -> Result<(), OrMemory<TextKind>>
        requires { self.old.section ≡ Section.Limits }
        ensures { Leaves self.new result (line_stated self.old line.now) }
    {
        let resources = self.resources();
        let periods = self.periods();
        match limit_of_line(resources, periods, line) {
            Ok(limit) => {
                if limit.bound.is_turned() || !is_limit_after(self.limits.as_slice(), &limit) {
                    return Err(OrMemory::Fault(TextKind::Order));
                }
                self.limits.push(limit)?;
                Ok(())
            }
            Err(kind) => self.admit_key_or(line, kind),
        }
    }

    // Reads a line that states no item of its section: the line of a key, or an invalid line with this kind.
    #[inline(never)]
    #[tactic(auto, unfolding(crate::specs::ModelText::line_stated))]
    fn admit_key_or(&mut self, line: &[u8], kind: TextKind) -> Result<(), OrMemory<TextKind>>
        requires { list_any is_colon line.now ≡ false
            → item_stated self.old self.old.section (fields_of line.now) ≡ Err kind }
        ensures { Leaves self.new result (line_stated self.old line.now) }
    {
        match cut_at_colon(line) {
            Some((word, values)) => self.admit_key(key_of(self.problem, word), values),
            None => Err(OrMemory::Fault(kind)),
        }
    }

    // Reads the line of a key, from its key, if the key is known, and the bytes after its colon.
    fn admit_key(&mut self, key: Option<ModelKey>, values: &[u8]) -> Result<(), OrMemory<TextKind>>
        ensures { Leaves self.new result (keyed_stated self.old key (fields_of values.now)) }
    {
        match key {
            None => Err(OrMemory::Fault(TextKind::Key)),
            Some(ModelKey::Header(key)) => self.admit_header(key, values),
            Some(ModelKey::Section(section)) => self.admit_section(section, values),
        }
    }

    // Stores the value of a header key.
    #[tactic(auto, using(crate::proofs::models::LineCases::key_taken))]
    fn admit_header(&mut self, key: HeaderKey, values: &[u8]) -> Result<(), OrMemory<TextKind>>
        ensures { Leaves self.new result (key_stated self.old key (fields_of values.now)) }
    {
        if !is_heading(self.section) {
            return Err(OrMemory::Fault(TextKind::Key));
        }
        if self.header.is_given(key) {
            return Err(OrMemory::Fault(TextKind::Twice));
        }
        let value = only_value(values)?;
        let number = number_of_key(self.problem, self.blocks, key, value)?;
        self.name = name_with(self.alloc, key, value, self.name.take())?;
        self.header = self.header.with(key, number as u32);
        Ok(())
    }

    // Begins a section, whose key has no value.
    #[tactic(auto, using(crate::proofs::models::LineCases::section_taken))]
    fn admit_section(&mut self, section: Section, values: &[u8]) -> Result<(), OrMemory<TextKind>>
        ensures { Leaves self.new result
            (section_stated self.old section (fields_of values.now)) }
    {
        if !is_next(self.section, section) {
            return Err(OrMemory::Fault(TextKind::Key));
        }
        if count_fields(values) != 0 {
            return Err(OrMemory::Fault(TextKind::Fields));
        }
        if !self.is_ready() {
            return Err(OrMemory::Fault(TextKind::Missing));
        }
        self.section = section;
        Ok(())
    }

    #[inline]
    fn periods(&self) -> u8
        ensures { result ≡ count_in self.now.header key.Periods }
    {
        self.header.count(HeaderKey::Periods) as u8
    }

    #[inline]
    fn destinations(&self) -> u8
        ensures { result ≡ count_in self.now.header key.Destinations }
    {
        self.header.count(HeaderKey::Destinations) as u8
    }

    #[inline]
    fn resources(&self) -> u8
        ensures { result ≡ count_in self.now.header key.Resources }
    {
        self.header.count(HeaderKey::Resources) as u8
    }

    // Returns whether everything required before the next section is there.
    fn is_ready(&self) -> bool
        ensures { result ≡ is_ready self.now self.now.section }
    {
        match self.section {
            Section::Heading => self.header.is_complete(),
            Section::Objective => self.items.values_len() == self.blocks,
            Section::Coefs => true,
            Section::Limits => true,
        }
    }
}

impl ModelDraft<StoredItems> {
    /// Makes the instance of this file with these blocks and predecessors. The draft must have a NAME.
    pub fn into_instance(self, blocks: Blocks, preds: Preds) -> Instance
        requires { is_name self.name ≡ true }
        ensures { result ≡ instance_read blocks preds self }
    {
        let rate = self.header.count(HeaderKey::Rate);
        let periods = self.periods();
        let destinations = self.destinations();
        let resources = self.resources();
        Instance {
            name: self.name.unwrap(),
            rate: Dec::new(i128::from(rate)).unwrap(),
            periods,
            destinations,
            resources,
            blocks,
            preds,
            values: self.items.values,
            coefs: Coefs::new(self.items.coefs),
            limits: Limits::new(self.limits),
        }
    }

    /// Makes the CPIT of this file. The draft must have a NAME, and the lengths, ranges and orders of a CPIT.
    pub fn into_cpit(self) -> Cpit
        requires name { is_name self.name ≡ true }
        requires cpit { IsCpit (cpit_read self) }
        ensures { result ≡ cpit_read self }
    {
        let rate = self.header.count(HeaderKey::Rate);
        let periods = self.periods();
        let resources = self.resources();
        let StoredItems { values, coefs } = self.items;
        Cpit::new(
            self.name.unwrap(),
            Dec::new(i128::from(rate)).unwrap(),
            periods,
            resources,
            values.into_flat(),
            Coefs::new(coefs),
            self.limits,
        )
    }
}

// Returns the NAME after a header key with this value.
fn name_with(
    alloc: Global,
    key: HeaderKey,
    value: &[u8],
    name: Option<Name>,
) -> Result<Option<Name>, AllocError>
    requires { is_name_for key value.now ≡ true }
    ensures { IfOk result (λ named. unwrap_or named []
        ≡ name_with key value.now (unwrap_or name [])) }
{
    match key {
        HeaderKey::Name => Name::read(alloc, value),
        _ => Ok(name),
    }
}
