//! Laws of the definitions.

ghost use Rattle.std.specs.Prelude.{◌≡◌, ◌+◌, ◌≤◌, ℕ, Bool, true, Option, Some, length, map, slice_get};
ghost use Rattle.block_store.specs.Rest.{Site};
ghost use Rattle.script_text.specs.Script.{ScriptParts};
ghost use Rattle.script_text.specs.declared.script.Line.{Line};
ghost use Rattle.res_calls.specs.Files.{Resources};
ghost use Rattle.applications.specs.Trying.{Running, Blocks, launched_with, nowhere};
ghost use Rattle.applications.specs.Step.{Course, AlikeCourses, step, unless_over, nothing_yet};
ghost use Rattle.applications.specs.Alone.{first_steps, ending_of};
ghost use Rattle.applications.specs.Elsewhere.{moved, course_elsewhere};
ghost use Rattle.applications.specs.Inside.{AreSeen, glances, sight_after, sight_of};
ghost use Rattle.applications.specs.Replies.{end_by, has_ended};
ghost use Rattle.applications.specs.declared.quitting.Exit.{Exit};
ghost use Rattle.applications.specs.Promises.{KeepsPromises};

/// States the laws of an application with any resources, whatever its files and the System file
/// hold and whichever files are open. They hold of its launch and of any number of first steps of
/// any script. The stored data that is read into a handle, at the launch or by a call, is then the
/// bytes last put there, until other bytes are put; and a block that a resource's attributes lock
/// stays where it stands.
pub fn an_application_with_any_resources_keeps_the_laws()
    ensures laws { (resources : Resources) (size : ℕ) (script : ScriptParts) (n : ℕ)
        → KeepsPromises resources size script n }
{}

/// States what the next line of a script adds to the script's first steps, and that the place of an
/// application's partition has no part in the outcome of a step or an end of the application: a
/// step at any place is the step at any other place, with the place put back.
pub fn steps_follow_one_another()
    ensures begins { (resources : Resources) (size : ℕ) (script : ScriptParts)
        → first_steps resources size script 0 ≡ nothing_yet (launched_with resources size nowhere) }
    // The first `n + 1` steps are the first `n` and one step more, where a line is left and the
    // application has not ended.
    ensures more { (resources : Resources) (size : ℕ) (script : ScriptParts) (n : ℕ) (l : Line)
        → slice_get script.steps n ≡ Some l
        → AlikeCourses (first_steps resources size script (n + 1))
        (unless_over (first_steps resources size script n) (step script.blocks l)) }
    // The first `n + 1` steps are the first `n`, where no line is left or the application has
    // ended.
    ensures past { (resources : Resources) (size : ℕ) (script : ScriptParts) (n : ℕ)
        → length script.steps ≤ n
        → first_steps resources size script (n + 1) ≡ first_steps resources size script n }
    ensures over { (resources : Resources) (size : ℕ) (script : ScriptParts) (n : ℕ)
        → (first_steps resources size script n).over ≡ true
        → first_steps resources size script (n + 1) ≡ first_steps resources size script n }
    // Courses that are alike end alike.
    ensures alike_end { (asked : Bool) (c d : Course) → AlikeCourses c d
        → ending_of asked c ≡ ending_of asked d }
    ensures elsewhere { (site : Site) (blocks : Blocks) (l : Line) (r : Running)
        → step blocks l (moved site r) ≡ course_elsewhere site (step blocks l r) }
    ensures elsewhere_end { (site : Site) (exit : Option Exit) (r : Running)
        → end_by exit (moved site r) ≡ end_by exit r }
    ensures elsewhere_left { (site : Site) (exit : Option Exit) (r : Running)
        → has_ended exit (moved site r) ≡ moved site (has_ended exit r) }
    ensures elsewhere_launch { (resources : Resources) (n : ℕ) (site : Site)
        → launched_with resources n site ≡ moved site (launched_with resources n nowhere) }
{}

/// States that what an onlooker sees inside a step is how the step's tries leave the application,
/// in order and each with the code of its reply: all of them, or all but the last.
pub fn an_onlooker_sees_the_tries()
    ensures seen { (blocks : Blocks) (l : Line) (r : Running)
        → AreSeen (map sight_after (step blocks l r).events) (map sight_of (glances blocks l r)) }
{}
