//! A run over the files that a loss of power left. The functions do nothing: each has its law as its contract.
#![tactic(auto)]

ghost use Rattle.std.specs.Prelude.{List, Option};
ghost use Rattle.platform.specs.Image.{Image};
ghost use Rattle.folder_platform.specs.Events.{Event};
ghost use Rattle.folder_platform.specs.Files.{Files};
ghost use Rattle.folder_platform.specs.Loss.{AreLeft, AllSafe};
ghost use Rattle.folder_restart.specs.Restart.{StandsAgain, GoesOnAnywhere};

/// Files that an image leaves stand, once they are opened, for the device that it stands for.
pub fn stands_when_opened()
    ensures { (image : Image) (left : Files) → AreLeft image left → StandsAgain image left }
{}

/// What a loss of power leaves after any call on the files stands, once it is opened, for the device of the present image or
/// of the one before.
pub fn goes_on_anywhere()
    ensures { (files : Files) (events : List Event) → AllSafe files events → GoesOnAnywhere files events }
{}
