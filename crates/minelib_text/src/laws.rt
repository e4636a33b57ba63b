//! What holds of the texts of an instance and of reading, together: each contract is a law, and a call of it changes nothing.

ghost use Rattle.std.specs.Prelude.{◌≡◌, ◌⊎◌, ℕ, ◌≤◌, ◌++◌, ◌∷◌, [], All, true, List, length, Err};
ghost use Rattle.mine_instance.specs.cpit.Cpit.{CpitParts};
ghost use Rattle.mine_instance.specs.cpit.CpitInvariant.{IsCpit};
ghost use Rattle.mine_instance.specs.OfModel.{instance};
ghost use Rattle.mine_instance.specs.OneSlope.{instance_by};
ghost use Rattle.mine_instance.specs.Valid.{IsValid};
ghost use Rattle.mine_instance.specs.Instance.{Instance as AnInstance};
ghost use Rattle.minelib_reading.specs.Denotes.{Denotes, DenotesCpit};
ghost use Rattle.mine_instance.specs.WellFormed.{IsWellFormed, IsWellFormedCpit};
ghost use Rattle.minelib_reading.specs.ModelDraft.{blank_model};
ghost use Rattle.minelib_reading.specs.ModelText.{line_stated, model_in};
ghost use Rattle.minelib_text.specs.SameTexts.{HaveSameTexts};
ghost use Rattle.minelib_lines.specs.Lines.{text_of};
ghost use Rattle.minelib_reading.specs.encoded.EncodedModel.{EndsEarly, IsFirstSpoiled};
ghost use Rattle.text_lines.specs.Reading.{IsFirstFault};
ghost use Rattle.text_lines.specs.TextLines.{fields_of, is_ended, lines_in, lines_of};
ghost use Rattle.text_lines.specs.TextParts.{AreBlanks, IsFieldText, IsLineText};
ghost use Rattle.minelib_writing.specs.Written.{text_blocks, text_prec, text_pcpsp, text_cpit};
ghost use Rattle.minelib_lines.specs.declared.problem.Problem.{Problem};
ghost use Rattle.plan_parts.specs.Plan.{PlanParts};
ghost use Rattle.plan_parts.specs.PlanInvariant.{IsCone};
ghost use Rattle.text_lines.specs.declared.text_fault.LineFault.{LineFault};
ghost use Rattle.plan_parts.specs.declared.block.Block.{Block};
ghost use Rattle.precedence.specs.ConeLaws.{IsEven};
ghost use Rattle.plan_parts.specs.declared.ranges.TheConstants.{MAX_BLOCKS};

/// The texts of a valid instance denote that instance. That it has a NAME and decimals (`IsWellFormed`), `build` and `read_instance` say of
/// what they answer, and `write_pcpsp` of every instance that it wrote.
#[tactic(auto, using(crate::proofs::TextsBack::written_again))]
pub fn written_is_read()
    ensures { (i : AnInstance) → IsValid i → IsWellFormed i
        → Denotes (text_blocks i) (text_prec i) (text_pcpsp i) i }
{}

/// The text of a CPIT denotes that CPIT. That its parts are in their ranges and orders (`IsCpit`), with a NAME and decimals
/// (`IsWellFormedCpit`), `write_cpit` says of every CPIT that it wrote; the latter `read_cpit` says of what it answers, and `build_cpit`
/// where the instance has them.
#[tactic(auto, using(crate::proofs::TextsBack::written_cpit_again))]
pub fn written_cpit_is_read()
    ensures { (c : CpitParts) → IsCpit c → IsWellFormedCpit c
        → DenotesCpit (length c.values) (text_cpit c) c }
{}

/// Where the cone of each zone has one slope on all sides, the texts of a model's instance are those of the instance with predecessors by the
/// test with one slope.
pub fn even_zones()
    ensures { (plan : PlanParts) (listed : List Block) → All IsCone plan.cones
        → All IsEven plan.cones
        → HaveSameTexts (instance plan listed) (instance_by plan listed) }
{
    mine_instance::laws::even_zones();
}

/// The fault of a model file of n blocks is one of two.
///
/// - Its line is the first that states nothing behind those before it, and its kind is that of what fails first there.
///   The lines before it begin a model; with it, whatever stands behind, they begin none.
/// - Or all lines begin a model, they spell none, and something is missing at the end.
#[tactic(auto, using(crate::proofs::FirstSpoiledFacts::bad_model))]
pub fn invalid_lines_begin_no_model()
    ensures { (problem : Problem) (n : ℕ) (text : List ℕ) (fault : LineFault) → n ≤ MAX_BLOCKS
        → model_in problem n text ≡ Err fault
        → (IsFirstFault line_stated (blank_model problem n) (lines_in text) fault
        × IsFirstSpoiled problem n (lines_in text) fault.line) ⊎ EndsEarly problem n text fault }
{}

/// Lines are what stands between LFs; the last one may lack its LF. Fields are what stands between runs of blanks.
pub fn lines_and_fields()
    ensures lines { (lines : List (List ℕ)) → All IsLineText lines
        → lines_of (text_of lines) ≡ lines }
    ensures last_line { (lines : List (List ℕ)) (last : List ℕ) → All IsLineText lines
        → IsLineText last → 1 ≤ length last
        → lines_of (text_of lines ++ last) ≡ lines ++ last ∷ [] }
    ensures blanks { (blanks rest : List ℕ) → AreBlanks blanks
        → fields_of (blanks ++ rest) ≡ fields_of rest }
    ensures field { (field rest : List ℕ) → IsFieldText field → is_ended rest ≡ true
        → fields_of (field ++ rest) ≡ field ∷ fields_of rest }
{}
