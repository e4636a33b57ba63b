//! Theorems about the readers, for all texts. Each function does nothing; its contract states a theorem.

ghost use Rattle.std.specs.Prelude.{◌≡◌, ◌↔◌, ◌⊎◌, ℕ, ◌≤◌, [], List, length, Ok, Err};
ghost use Rattle.mine_instance.specs.cpit.Cpit.{CpitParts};
ghost use Rattle.mine_instance.specs.cpit.CpitInvariant.{IsCpit};
ghost use Rattle.mine_instance.specs.Valid.{IsValid};
ghost use Rattle.mine_instance.specs.Instance.{Instance as AnInstance};
ghost use Rattle.minelib_reading.specs.BlockText.{block_stated, blocks_in, with_block};
ghost use Rattle.minelib_reading.specs.Denotes.{Denotes, DenotesCpit};
ghost use Rattle.minelib_reading.specs.ModelDraft.{ModelDraftView};
ghost use Rattle.minelib_reading.specs.ModelText.{key_stated, model_in};
ghost use Rattle.minelib_reading.specs.PrecText.{preds_in, preds_stated, with_preds};
ghost use Rattle.minelib_reading.specs.StatedModel.{StatedModel, stated_by};
ghost use Rattle.minelib_reading.specs.encoded.LineKinds.{HasFields, IsOfAnother, IsOutOfTurn, MissesRequired, Miscounts, PredsFail, Repeats, SectionFails};
ghost use Rattle.minelib_reading.specs.encoded.EncodedAdditions.{AddsWhatItEncodes, ReadsKey, StatesKey};
ghost use Rattle.minelib_reading.specs.encoded.EncodedItems.{EncodesBlock, EncodesPreds};
ghost use Rattle.minelib_reading.specs.encoded.EncodedLines.{IsFirstInvalidLine};
ghost use Rattle.minelib_reading.specs.encoded.EncodedModel.{AreModelLines};
ghost use Rattle.minelib_reading.specs.encoded.EncodedTexts.{EncodeBlocks, EncodeCpit, EncodeInstance, EncodePreds, EncodesBlockLine, EncodesPredsLine, MissesLines};
ghost use Rattle.minelib_reading.specs.declared.model.key.Section.TheVariants.{Coefs, Limits, Objective};
ghost use Rattle.minelib_lines.specs.declared.header_key.HeaderKey.{HeaderKey};
ghost use Rattle.minelib_lines.specs.declared.problem.Problem.{Problem};
ghost use Rattle.text_lines.specs.Reading.{IsFirstFault};
ghost use Rattle.text_lines.specs.TextLines.{fields_of, lines_in};
ghost use Rattle.text_lines.specs.declared.text_fault.LineFault.{LineFault};
ghost use Rattle.text_lines.specs.declared.text_fault.TextKind.TheVariants.{Count, Fields, Key, Missing, Order, Twice};
ghost use Rattle.plan_parts.specs.declared.block.Block.{Block};
ghost use Rattle.plan_parts.specs.declared.ranges.TheConstants.{MAX_BLOCKS};

/// The instance that three texts denote is valid.
pub fn read_is_valid()
    ensures { (blocks prec pcpsp : List ℕ) (i : AnInstance) → Denotes blocks prec pcpsp i
        → IsValid i }
{}

/// If a text denotes a constrained pit limit problem of n blocks, the problem has its lengths, ranges and orders, and n values.
pub fn cpit_read_is_valid()
    ensures { (n : ℕ) (text : List ℕ) (c : CpitParts) → n ≤ MAX_BLOCKS → DenotesCpit n text c
        → IsCpit c × (length c.values ≡ n) }
{}

/// A line states what its fields encode.
///
/// - `blocks`: the line after `before` others states a block if and only if its fields encode the number `before` and the block.
/// - `preds`: the line of the block `own`, one of n, states predecessors if and only if its fields encode `own`, the number of
///   predecessors and each predecessor. The predecessors must be distinct identifiers of the n blocks other than `own`.
/// - `header`, `read`: the only field after a header key's colon encodes what the model then states for the key; other keys stay
///   unchanged. A value that encodes something for a key that was not read yet is read.
/// - `values`: a line of the objective adds the values of the next block if and only if its fields encode them.
/// - `coefs`, `limits`: a line of coefficients or limits adds one if and only if its fields encode it, and it follows the last one.
pub fn lines_state_what_they_encode()
    ensures blocks { (before : ℕ) (line : List ℕ) (b : Block)
        → (block_stated before (fields_of line) ≡ Ok b) ↔ EncodesBlock before (fields_of line) b }
    ensures preds { (n own : ℕ) (line ids : List ℕ)
        → (preds_stated n own (fields_of line) ≡ Ok ids) ↔ EncodesPreds n own (fields_of line) ids }
    ensures header { (d next : ModelDraftView) (k : HeaderKey) (fields : List (List ℕ))
        → key_stated d k fields ≡ Ok next → StatesKey d k fields next }
    ensures read { (k : HeaderKey) → ReadsKey k }
    ensures values { AddsWhatItEncodes Objective }
    ensures coefs { AddsWhatItEncodes Coefs }
    ensures limits { AddsWhatItEncodes Limits }
{}

/// If a text is read as blocks, each line that is not skipped encodes one of them, in order.
pub fn block_lines_are_encoded()
    ensures { (text : List ℕ) (blocks : List Block) → blocks_in text ≡ Ok blocks
        → EncodeBlocks text blocks }
{}

/// If a text is read as the predecessors of n blocks, each line that is not skipped encodes the predecessors of one block, in
/// order.
pub fn prec_lines_are_encoded()
    ensures { (n : ℕ) (text : List ℕ) (lists : List (List ℕ)) → preds_in n text ≡ Ok lists
        → EncodePreds n text lists }
{}

/// If a model file of n blocks is read, its lines that are not skipped encode its content. First comes one line for each header
/// key, in any order. Then come the sections: a line with only the section's key, and after it a line for each block's values, each
/// coefficient or each limit, in order. The value of a header key and the fields of a section's line encode the numbers of their
/// part.
#[tactic(auto, using(crate::proofs::encoded::EncodedDenotes::model_encoded))]
pub fn model_lines_are_encoded()
    ensures { (problem : Problem) (n : ℕ) (text : List ℕ) (d : ModelDraftView)
        → model_in problem n text ≡ Ok d
        → AreModelLines problem n (lines_in text) (stated_by d) }
{}

/// Lines that encode the content of a model file are read as this content. The header keys may be in any order, and numbers in any
/// encoding.
#[tactic(auto, using(crate::proofs::encoded::EncodedDenotes::model_back))]
pub fn encoded_models_are_read()
    ensures { (problem : Problem) (n : ℕ) (text : List ℕ) (m : StatedModel)
        → AreModelLines problem n (lines_in text) m
        → (d : ModelDraftView) × (model_in problem n text ≡ Ok d) × (stated_by d ≡ m) }
{}

/// Three texts denote an instance if and only if their lines encode it.
pub fn instances_are_encoded()
    ensures { (blocks prec pcpsp : List ℕ) (i : AnInstance)
        → Denotes blocks prec pcpsp i ↔ EncodeInstance blocks prec pcpsp i }
{}

/// A text denotes a constrained pit limit problem of n blocks if and only if its lines encode it.
pub fn cpits_are_encoded()
    ensures { (n : ℕ) (text : List ℕ) (c : CpitParts) → DenotesCpit n text c ↔ EncodeCpit n text c }
{}

/// Lines that encode blocks are read as these blocks, in any encoding.
pub fn encoded_blocks_are_read()
    ensures { (text : List ℕ) (blocks : List Block) → EncodeBlocks text blocks
        → blocks_in text ≡ Ok blocks }
{}

/// Lines that encode the predecessors of n blocks, one line for each block, are read as these predecessors.
pub fn encoded_preds_are_read()
    ensures { (n : ℕ) (text : List ℕ) (lists : List (List ℕ)) → EncodePreds n text lists
        → preds_in n text ≡ Ok lists }
{}

/// The invalid line of a block file is the first one that encodes no block after the blocks of earlier lines. Its kind is the kind
/// of the first requirement that it violates.
pub fn invalid_lines_encode_no_block()
    ensures { (text : List ℕ) (fault : LineFault) → blocks_in text ≡ Err fault
        → IsFirstFault with_block [] (lines_in text) fault
        × IsFirstInvalidLine EncodesBlockLine (lines_in text) fault.line }
{}

/// A precedence file has one of two faults. Either its line is the first that encodes no predecessors of its block, and its kind is
/// the kind of the first requirement that the line violates. Or all lines encode predecessors, and the number of lines is not the
/// number of blocks.
#[tactic(auto, using(crate::proofs::encoded::EncodedRead::bad_preds))]
pub fn invalid_lines_encode_no_preds()
    ensures { (n : ℕ) (text : List ℕ) (fault : LineFault) → preds_in n text ≡ Err fault
        → (IsFirstFault (with_preds n) [] (lines_in text) fault
        × IsFirstInvalidLine (EncodesPredsLine n) (lines_in text) fault.line)
        ⊎ MissesLines n text fault }
{}

/// The kind of a fault is the kind of the first requirement that a line violates.
///
/// - `order`, `count`, `twice`: of a precedence line whose fields encode numbers. The first is not the block's own; or it is, but
///   the second is not the number of predecessors; or both are right, but a predecessor appears twice or is the block itself.
/// - `key`, `fields`, `missing`: of the line of a section's key. The section is not the next one; or it is, but a field follows the
///   colon; or none follows, but something required before it is missing.
pub fn invalid_lines_have_their_kind()
    ensures order { PredsFail Order IsOfAnother }
    ensures count { PredsFail Count Miscounts }
    ensures twice { PredsFail Twice Repeats }
    ensures key { SectionFails Key IsOutOfTurn }
    ensures fields { SectionFails Fields HasFields }
    ensures missing { SectionFails Missing MissesRequired }
{}
