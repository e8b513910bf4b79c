ghost use Rattle.std.specs.Prelude.{◌≡◌, ◌≤◌, ◌+◌, IfOk, IfErr, IsErrOf};
ghost use Rattle.sdbt_base.specs.Faults.{TellsOf};
ghost use Rattle.platform.specs.Calls.{Looks};
ghost use Rattle.page_store.specs.Reading.{MayLook};
ghost use Rattle.device_session.specs.Causes.{IsMountCause};

use crate::refusals::MountRefusal;
use btree_update::Grove;
use btree_walk::NodeReader;
use page_store::current;
use platform::Platform;
use root_codec::Root;
use std::alloc::Global;
use std::marker::Model;

/// A session on a device: an array of blocks with changes that are the device's only with a commit.
///
/// Each call of a session wants a platform that has at least the pages that the one had on which it was
/// mounted or last called. After a refused `read`, `write` or `trim` its array is unchanged.
pub struct Session {
    // the root record that the session was opened on, or that its last commit made
    pub(crate) root: Root,
    // how many blocks are mapped, by the root record and the changes since
    pub(crate) mapped: u64,
    pub(crate) is_touched: bool,
    pub(crate) grove: Grove,
    pub(crate) reader: NodeReader,
    pub(crate) alloc: Global,
}

impl Model for Session {
    ghost use Rattle.device_session.specs.Sessions as specs;
    ghost use Rattle.btree_twigs.specs.contracts.twigs.Child as child;
    ghost use Rattle.std.specs.Coded.{codes};
    ghost use Rattle.std.specs.Prelude.{box_value};

    ghost Value = { specs.Session };

    ghost coded = { Prim.hlevel (codes, child.the_row.coded) };

    ghost view = { λ s. record {
      root = s.root;
      mapped = s.mapped;
      is_touched = s.is_touched;
      grove = s.grove;
      cache = s.reader.cache;
      buffers = s.reader.buffers;
      node = box_value s.reader.node;
    } };
}

impl Session {
    ghost use Rattle.device_session.specs.Open.{blocks_of, number_of, root_of};
    ghost use Rattle.device_session.specs.Mounting.{Mounts};
    ghost use Rattle.device_session.specs.Spent.{HasNothing};

    /// Opens a session on the device. It looks at the cell once, and reads no page.
    ///
    /// `cache` is how many nodes are cached, at most 4,096. `NoDevice` comes exactly where the cell is empty, `BadRoot` exactly
    /// where it is full and holds no root record, or one that speaks of more pages than there are.
    #[tactic(auto, using(platform::proofs::CallLaws::looks_start, platform::proofs::CallLaws::looks_call, platform::proofs::CallLaws::looks_then))]
    pub fn mount<P: Platform>(
        alloc: Global,
        platform: &mut P,
        cache: usize,
    ) -> Result<Session, MountRefusal>
        requires { cache ≤ 4096 }
        ensures mounts { IfOk result (Mounts P.Platform cache platform.old platform.new) }
        ensures refused { P.tells → IfErr result (λ refusal. IsMountCause (P.history platform.old).present.cell (P.head platform.old) refusal) }
        ensures looks { Looks P.Platform platform.old platform.new }
        ensures reads { P.tells → MayLook P.Platform platform.old platform.new }
        ensures looked { P.tells → (IsErrOf result MountRefusal.PlatformFault → ⊥) → P.reads platform.new ≡ P.reads platform.old + 1 }
        ensures cause { TellsOf MountRefusal.PlatformFault result (P.faults platform.old) (P.faults platform.new) }
    {
        let Some(root) = current(platform)? else {
            return Err(MountRefusal::NoDevice);
        };
        let reader = NodeReader::new(alloc, cache)?;
        let grove = Grove::of(alloc, &root);
        let mapped = root.mapped;
        Ok(Session {
            root,
            mapped,
            is_touched: false,
            grove,
            reader,
            alloc,
        })
    }

    /// The number of mapped blocks, uncommitted changes included.
    pub fn mapped(&self) -> u64
        ensures { result ≡ self.now.mapped }
    {
        self.mapped
    }

    /// The commit number of the mount or the last commit.
    pub fn number(&self) -> u64
        ensures { result ≡ number_of self.now }
    {
        self.root.commit
    }

    /// The device's number of blocks.
    pub fn blocks(&self) -> u64
        ensures { result ≡ blocks_of self.now }
    {
        self.root.blocks
    }

    /// The root record of the mount or the last commit.
    pub fn root(&self) -> &Root
        ensures { result.now ≡ root_of self.now }
    {
        &self.root
    }

    /// Leaves nothing of what was read or sealed in the session's buffers, no node in its cache or in memory, nor anything of the
    /// node that was read last: for a session that is given up. Its root record stays, and how many blocks are mapped.
    pub fn wipe(&mut self)
        ensures nothing { HasNothing self.new }
        ensures stays { (self.new.root ≡ self.old.root) × (self.new.mapped ≡ self.old.mapped) × (self.new.is_touched ≡ self.old.is_touched) }
    {
        self.reader.wipe();
        self.reader.cache.clear();
        self.grove.wipe();
    }

    /// Lets a session go in which nothing is left.
    pub fn let_go(self)
        requires { HasNothing self }
    {}
}

/// A session that is let go anywhere is wiped: its tree can't be let go with a key in it.
impl Drop for Session {
    fn drop(mut self) {
        self.wipe();
        let Session {
            root: _,
            mapped: _,
            is_touched: _,
            grove: _,
            reader: _,
            alloc: _,
        } = self;
    }
}
