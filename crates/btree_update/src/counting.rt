ghost use Rattle.std.specs.Prelude.{◌≡◌, ◌<◌, ◌^◌};
ghost use Rattle.btree_twigs.specs.Stubs.{nodes, sum_by};

use btree_twigs::Child;

/// How many nodes in memory a child of this level is made of.
#[cycle(count)]
pub(crate) fn count(child: &Child, level: u8) -> u64
    requires { nodes level child.now < 2 ^ 64 }
    ensures { result ≡ nodes level child.now }
{
    if level == 0 {
        return 0;
    }
    match child {
        Child::Kept { .. } => 0,
        Child::Grown { twig, .. } => count_all(&twig.children, level - 1) + 1,
    }
}

/// How many these children of this level are made of.
#[cycle(count)]
fn count_all(children: &[Child], level: u8) -> u64
    requires { sum_by (nodes level) children.now < 2 ^ 64 }
    ensures { result ≡ sum_by (nodes level) children.now }
{
    let mut sum = 0;
    for child in children {
        sum += count(child, level);
    }
    sum
}
