//! Laws of sessions. The functions do nothing: each has its law as its contract.
ghost use Rattle.std.specs.Prelude.{◌≡◌, ◌≤◌, ℕ, Some, true, false};
ghost use Rattle.std.specs.FinMap as map;
ghost use Rattle.platform.specs.Image.{Image};
ghost use Rattle.sdbt_base.specs.Arrays.{Device, Blocks};
ghost use Rattle.page_store.specs.Stands.{Stands};
ghost use Rattle.device_session.specs.Open.{IsOpen, blocks_of, number_of, is_touched, needed_by};
ghost use Rattle.device_session.specs.Holds.{Holds};
ghost use Rattle.device_session.specs.Sessions.{Session};

/// Below a session the image stands for its device, of which a session without changes has the array. It counts the blocks of its array.
pub fn stands_under_session()
    ensures stands { (session : Session) (image : Image) (device : Device) (contents : Blocks) → Holds session image device contents
        → Stands image (Some device) }
    ensures numbers { (session : Session) (image : Image) (device : Device) (contents : Blocks) → Holds session image device contents
        → (blocks_of session ≡ device.blocks) × (number_of session ≡ device.number) }
    ensures untouched { (session : Session) (image : Image) (device : Device) (contents : Blocks) → Holds session image device contents
        → is_touched session ≡ false → contents ≡ device.contents }
    ensures mapped { (session : Session) (image : Image) (device : Device) (contents : Blocks) (head : ℕ) → IsOpen session head
        → Holds session image device contents → session.mapped ≡ map.len contents }
{}

/// A commit needs pages exactly where something was changed.
pub fn changes_need_pages()
    ensures none { (session : Session) (pages : ℕ) → IsOpen session pages → is_touched session ≡ false → needed_by session ≡ 0 }
    ensures some { (session : Session) (pages : ℕ) → IsOpen session pages → is_touched session ≡ true → 1 ≤ needed_by session }
{}

/// A session that is open stays so as pages are added.
pub fn more_pages_leave_it_open()
    ensures { (session : Session) (pages more : ℕ) → pages ≤ more → IsOpen session pages → IsOpen session more }
{}
