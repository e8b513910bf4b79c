//! What every part of a run over a device promises, whoever it serves: at each moment one of the devices that it made, in their
//! order; keys kept; and what was deleted stays so. The functions do nothing: each has a law of these as its contract.
#![tactic(auto)]

ghost use Rattle.std.specs.Prelude.{◌≤◌, ◌++◌, List, ℕ, [], None, Option};
ghost use Rattle.sdbt_base.specs.Arrays.{Device, State, closed};
ghost use Rattle.page_store.specs.Kept.{Kept};
ghost use Rattle.device_session.specs.Sessions.{Session};
ghost use Rattle.device_course.specs.States.{Outside, IsAt, IsListed};
ghost use Rattle.page_store.specs.Disclosing.{DisclosesBy};
ghost use Rattle.device_course.specs.Course.{Course, Ended};
ghost use Rattle.device_course.specs.Fitting.{FitsImage};
ghost use Rattle.platform.specs.Image.{Image, LeavesOnly};
ghost use Rattle.page_store.specs.Stands.{Stands};

/// How parts of a run compose.
pub fn courses_compose()
    ensures start { (old : Outside) (session : Option Session) (entry : State) → old.head ≤ old.capacity → IsAt old.history.present session entry
        → Course old old session session entry [] entry }
    ensures then { (first second third : Outside) (before between after : Option Session) (entry mid exit : State) (one two : List (Option Device))
        → Course first second before between entry one mid → Course second third between after mid two exit
        → Course first third before after entry (one ++ two) exit }
    ensures ends { (first second third : Outside) (before between after : Option Session) (entry mid exit : State) (one two : List (Option Device))
        → Course first second before between entry one mid → Ended second third between after mid two exit
        → Ended first third before after entry (one ++ two) exit }
    ensures closed { (old new : Outside) (before after : Option Session) (entry exit : State) (marks : List (Option Device))
        → Course old new before after entry marks exit → Course old new before None entry marks (closed exit.device) }
    ensures stops { (old new : Outside) (before after : Option Session) (entry exit : State) (marks : List (Option Device))
        → Course old new before after entry marks exit → Ended old new before after entry marks exit }
{}

/// What the pages disclose after a part of a run to whoever has the root record's key.
pub fn course_discloses()
    ensures { (old new : Outside) (before after : Option Session) (entry exit : State) (marks : List (Option Device)) (keys : List (List ℕ))
        → (course : Ended old new before after entry marks exit) → Kept keys old.history.present → IsListed before old.history.present keys
        → DisclosesBy keys course.on.keys.grew old.history new.history }
{}

/// A ledger that fits an image fits all that a loss of power may leave of it.
pub fn a_fitting_ledger_survives_a_loss_of_power()
    ensures { (text : List ℕ) (image : Image) (device : Option Device) → Stands image device → FitsImage text image → LeavesOnly (FitsImage text) image }
{}
