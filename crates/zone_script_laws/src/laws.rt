//! Laws of the scripts of zones.

ghost use Rattle.std.specs.Prelude.{◌≡◌, ◌+◌, ◌≤◌, ℕ, true, List, [], length, None, Ok};
ghost use Rattle.real_zone.specs.Zone.{is_zone};
ghost use Rattle.real_zone.specs.declared.form.Form.{Form};
ghost use Rattle.real_zone_view.specs.Answers.{answer_text, dump_fault};
ghost use Rattle.real_zone_view.specs.declared.dump.Place.{Place};
ghost use Rattle.zone_scripts.specs.Copied.{parts_in, fits};
ghost use Rattle.zone_scripts.specs.Text.{script_text};
ghost use Rattle.block_store.specs.declared.measures.TheConstants.{GREATEST_ZONE};
ghost use Rattle.block_store.specs.Rest.{Site};
ghost use Rattle.heap_calls.specs.State.{fresh_memory};
ghost use Rattle.zone_scripts.specs.Parts.{Part, partition_of, zone_of};
ghost use Rattle.zone_scripts.specs.Lines.{lines_of, NamesDiffer};
ghost use Rattle.script_text.specs.Script.{ScriptParts, script_of, spelled};
ghost use Rattle.applications.specs.Alone.{run_alone};
ghost use Rattle.zone_script_laws.specs.Runs.{Runs};
ghost use Rattle.zone_script_laws.specs.Shown.{asks_script, parts_at};
ghost use Rattle.zone_script_laws.specs.Spoken.{States, Leaves};
ghost use Rattle.zone_script_laws.specs.Stated.{first_line, stated_from};

/// In a fresh partition of the size that it says, each call of a script is done, one after the
/// other, and the zone is then that of the parts: after the master pointer blocks the blocks in
/// their order, each of its kind and with its logical size, locked and purgeable as its part is.
#[tactic(auto, using(crate::proofs::Whole::makes_zone))]
pub fn a_script_makes_its_zone()
    ensures { (parts : List Part) (site : Site) → NamesDiffer parts
        → partition_of parts ≤ GREATEST_ZONE
        → Runs (lines_of parts) (fresh_memory (partition_of parts) site) []
        (λ m names. m.heap.zone ≡ zone_of parts) }
{}

/// An application that is only a script whose steps state these calls, alone in a partition of
/// that size, has that zone after its last step, and each line of its transcript has code 0.
#[tactic(auto, using(crate::proofs::Whole::makes_zone_alone))]
pub fn an_application_makes_the_zone()
    ensures { (parts : List Part) (script : ScriptParts) → NamesDiffer parts
        → partition_of parts ≤ GREATEST_ZONE → States (lines_of parts) script.steps
        → Leaves (zone_of parts) (run_alone (partition_of parts) script) }
{}

/// The text of a script is read, with no fault, as its calls, line by line, and as no grow-zone
/// script.
#[tactic(auto, using(crate::proofs::Texts::text_is_read))]
pub fn a_script_is_read_as_its_calls()
    ensures { (form : Form) (zone : ℕ) (parts : List Part) → partition_of parts ≤ GREATEST_ZONE
        → script_of (script_text form zone parts)
        ≡ Ok (record { steps = stated_from first_line (lines_of parts); blocks = [] }) }
{}

/// Of each zone of a dump that keeps all rules, where a partition has room for its blocks: an
/// application that is only the script that is read in this text, alone in a partition of that
/// size, has the zone of these blocks after its last step, and each line of its transcript has
/// code 0.
#[tactic(auto, using(crate::proofs::Whole::makes_zone_of_dump))]
pub fn a_script_makes_the_zone_of_a_dump()
    ensures { (form : Form) (zone : ℕ) (bytes : List ℕ) (script : ScriptParts)
        → is_zone form zone bytes ≡ true → 52 ≤ length bytes → zone + length bytes ≤ 4294967296
        → fits (parts_in form zone bytes) ≡ true
        → script_of (script_text form zone (parts_in form zone bytes)) ≡ Ok (spelled script)
        → Leaves (zone_of (parts_in form zone bytes))
        (run_alone (partition_of (parts_in form zone bytes)) script) }
{}

/// So it is wherever a question for the script of a zone has an answer: of the script that is read
/// in that answer.
#[tactic(auto, using(crate::proofs::Whole::makes_zone_shown))]
pub fn an_answer_makes_the_zone_of_a_dump()
    ensures { (base : ℕ) (place : Place) (dump : List ℕ) (script : ScriptParts)
        → dump_fault (asks_script base place) dump ≡ None
        → script_of (answer_text (asks_script base place) dump) ≡ Ok (spelled script)
        → Leaves (zone_of (parts_at base place dump))
        (run_alone (partition_of (parts_at base place dump)) script) }
{}
