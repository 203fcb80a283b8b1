//! The key of the node at which a branch stands.
ghost use Rattle.std.specs.Prelude.{◌≡◌, ◌<◌, ◌++◌, ◌∷◌, [], ℕ, List, length, IfSome, MatchOption};
ghost use Rattle.branch_core.specs.Hooks.{ExtendsBy, SameGifts};
ghost use Rattle.branch_core.specs.Paths.{key};
ghost use Rattle.branch_core.specs.Whole.{IsIn};
ghost use Rattle.branch_walk.specs.Jobs.{turn_of, turns_taken};

use branch_core::{Hook, Path, key_of};
use me_terms::{Entry, Reason, View};

/// The path with the turn of the entry, or None where there are 16 turns already and the entry has one.
fn with_turn(path: Path, entry: &Entry) -> Option<Path>
    ensures { MatchOption result (length path ≡ 16) (λ p. p ≡ path ++ turn_of entry.now.reason) }
{
    match entry.reason {
        Reason::SplitLeft => path.left(),
        Reason::SplitRight => path.right(),
        Reason::Pseudo | Reason::Asserted { .. } => Some(path),
    }
}

/// The key of the turns that the branch's entries stand for.
pub fn node_key<V: View>(branch: &V) -> u16
    ensures { result ≡ key (turns_taken (V.context branch.now)) }
{
    let mut path = Path::root();
    for k in 0..branch.len() {
        let Some(entry) = branch.entry(k) else {
            unreachable!()
        };
        match with_turn(path, entry) {
            Some(longer) => path = longer,
            None => return key_of(path),
        }
    }
    key_of(path)
}

/// The least key that the hook tells, where it is smaller than that of the branch's node.
pub(crate) fn told_cut<V: View, J, H: Hook<J>>(branch: &V, hook: &mut H) -> Option<u16>
    ensures told { (told : List ℕ) × ExtendsBy (H.history hook.old) (H.history hook.new) [] told [] × IfSome result (λ cut_key. IsIn cut_key told × (cut_key < key (turns_taken (V.context branch.now)))) }
    ensures condition { SameGifts (H.may_give hook.old) (H.may_give hook.new) }
{
    match hook.least() {
        Some(least) => {
            if least < node_key(branch) {
                Some(least)
            } else {
                None
            }
        }
        None => None,
    }
}
