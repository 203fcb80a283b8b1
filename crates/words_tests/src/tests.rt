//! Worked examples of one worker's steps, and four workers that end all paths in orders of their own.
use crate::all_paths;
use branch_core::Path;
use share_words::{NO_KEY, Offer, Take, Words};
use std::test::Fail;

#[test]
fn each_path_is_taken_once(rt: HostRuntime) -> Result<(), Fail> {
    let (words, mut seat) = Words::new(rt.alloc(), 1)?;
    let root = Path::root();
    let child = Path { len: 1, bits: 1 };
    assert!(rt; matches!(words.take(&mut seat, child), Take::NotOpen { word: 0 }));
    assert!(rt; matches!(words.take(&mut seat, root), Take::Taken));
    assert!(rt; matches!(words.offer(&mut seat, root, child), Offer::Offered));
    words.raise(&mut seat, child);
    assert!(rt;
        matches!(
            words.offer(&mut seat, root, child),
            Offer::NotNew { word: 1 }
        )
    );
    assert!(rt; matches!(words.take(&mut seat, child), Take::Taken));
    assert!(rt; matches!(words.take(&mut seat, child), Take::NotOpen { word: 2 }));
    assert!(rt;
        matches!(
            words.offer(&mut seat, root, child),
            Offer::NotNew { word: 2 }
        )
    );
    assert_eq!(rt; words.live(&mut seat), 2);
    words.end(&mut seat, child);
    words.end(&mut seat, root);
    assert_eq!(rt; words.live(&mut seat), 0);
    let mut other = words.fork_seat(&mut seat);
    assert_eq!(rt; words.look(&mut seat), NO_KEY);
    assert_eq!(rt; words.post(&mut other, 32_768), NO_KEY);
    words.gather(&mut seat, other);
    assert_eq!(rt; words.look(&mut seat), 32_768);
    Ok(())
}

// Each path is taken by one worker, in whatever orders they go: the codes are the odd ones, each once.
#[test]
fn all_paths_are_taken_and_ended(rt: HostRuntime) -> Result<(), Fail> {
    for (share, mask, seed) in [
        (0u8, 1u32, 1u64),
        (1, 3, 2),
        (4, 31, 3),
        (10, 2_047, 4),
        (10, 2_047, 5),
        (16, 131_071, 6),
    ] {
        let (mut codes, done) = all_paths(&rt, rt.alloc(), share, mask, seed)?;
        codes.sort_unstable();
        assert!(rt; done, "share {share}");
        assert_eq!(rt; codes.len(), 1usize << share, "share {share}");
        for (k, code) in codes.iter().enumerate() {
            assert_eq!(rt; *code as usize, 2 * k + 1, "share {share}");
        }
    }
    Ok(())
}
