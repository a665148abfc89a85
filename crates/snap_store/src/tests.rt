ghost use Rattle.snap_store.specs.Store.{IsLive, HasLength};

use super::{SnapId, Snaps};
use std::process::Abort;
use std::test::Fail;

fn assert_holds(rt: &impl Abort, snaps: &Snaps, id: SnapId, count: usize)
    ensures live { IsLive snaps.now id }
    ensures length { HasLength snaps.now id count }
{
    let words = snaps.slots.get(id.key).expect(rt, "no such snapshot");
    assert_eq!(rt; words.len(), count);
}

fn assert_restores(rt: &impl Abort, snaps: &Snaps, id: SnapId, words: &[i64]) {
    let mut into = [-1; 8];
    assert!(rt; words.len() <= 8);
    assert_holds(rt, snaps, id, words.len());
    snaps.restore(id, &mut into[..words.len()]);
    assert_eq!(rt; &into[..words.len()], words);
}

#[test]
fn what_was_saved_is_restored_until_it_is_released(rt: HostRuntime) -> Result<(), Fail> {
    let mut snaps = Snaps::new(rt.alloc());
    let first = snaps.save(rt.alloc(), &[1, 2, 3])?;
    let empty = snaps.save(rt.alloc(), &[])?;
    let last = snaps.save(rt.alloc(), &[i64::MIN, i64::MAX])?;
    assert_restores(&rt, &snaps, first, &[1, 2, 3]);
    assert_restores(&rt, &snaps, empty, &[]);
    assert_restores(&rt, &snaps, last, &[i64::MIN, i64::MAX]);
    snaps.release(empty);
    assert_holds(&rt, &snaps, first, 3);
    snaps.overwrite(first, &[4, 5, 6]);
    let again = snaps.save(rt.alloc(), &[7])?;
    assert_restores(&rt, &snaps, first, &[4, 5, 6]);
    assert_restores(&rt, &snaps, last, &[i64::MIN, i64::MAX]);
    assert_restores(&rt, &snaps, again, &[7]);
    Ok(())
}

#[test]
fn calls_in_a_mixed_order_agree_with_a_plain_list(rt: HostRuntime) -> Result<(), Fail> {
    let mut snaps = Snaps::new(rt.alloc());
    let mut plain = Vec::new(rt.alloc());
    for step in 0..90u32 {
        let word = i64::from(step);
        let count = step as usize % 9;
        if step % 3 < 2 {
            let id = snaps.save(rt.alloc(), &[word; 8][..count])?;
            plain.push((id, word, count))?;
        } else {
            assert!(rt; plain.len() > 0);
            let at = step as usize * 7 % plain.len();
            let (id, _, count) = plain[at];
            assert!(rt; count <= 8);
            assert_holds(&rt, &snaps, id, count);
            if step % 2 == 0 {
                snaps.overwrite(id, &[word; 8][..count]);
                plain[at] = (id, word, count);
            } else {
                snaps.release(id);
                plain.swap_remove(at);
            }
        }
        for &(id, word, count) in &plain {
            assert!(rt; count <= 8);
            assert_restores(&rt, &snaps, id, &[word; 8][..count]);
        }
    }
    Ok(())
}
