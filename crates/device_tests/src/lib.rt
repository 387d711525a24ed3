// Tests of the drives, run through the interface that they share.
#![tactic(auto)]

#[cfg(test)]
mod tests {
    use device::{Cut, Device, Factor, Image, Manner, ReadError, Skew, StoreError, Trial};
    use std::alloc::{AllocError, Global};
    use std::array;
    use std::test::Fail;

    // A cut that leaves its block as it was.
    fn old(at: u32) -> Cut {
        Cut {
            at,
            manner: Manner::Old,
        }
    }

    // Such a cut at store 1, the next at store 2, and so on.
    fn in_turn() -> [Cut; 8] {
        array::from_fn(|n| old(1 + n as u32))
    }

    // A lit drive of n readable blocks of zeros.
    fn trial(heap: Global, n: u8, cuts: [Cut; 8]) -> Result<Trial, AllocError> {
        let n = usize::from(n);
        let bytes = vec![in heap; 0u8; 512 * n]?;
        Ok(Trial::new(bytes, vec![in heap; 0u8; n]?, cuts))
    }

    // Two blocks, the first cut and no other.
    fn trial_of_one(heap: Global, first: Cut) -> Result<Trial, AllocError> {
        let mut cuts = [Cut::NEVER; 8];
        cuts[0] = first;
        trial(heap, 2, cuts)
    }

    // Whether block b can be read and every byte of it is x.
    fn holds<D: Device>(drive: &D, b: usize, x: u8) -> bool {
        let mut buffer = [!x; 512];
        drive.read(b, &mut buffer).is_ok() && buffer == [x; 512]
    }

    // Why a read is not done, if it leaves the buffer as it was.
    fn unread<D: Device>(drive: &D, b: usize) -> Option<ReadError> {
        let mut buffer = [170; 512];
        let refusal = drive.read(b, &mut buffer).err();
        if buffer == [170; 512] { refusal } else { None }
    }

    // Whether a store of a block of x is done.
    fn done<D: Device>(drive: &mut D, b: usize, x: u8) -> bool {
        drive.store(b, &[x; 512]).is_ok()
    }

    // Whether it finds the drive dark or leaves it so.
    fn dark<D: Device>(drive: &mut D, b: usize, x: u8) -> bool {
        drive.store(b, &[x; 512]) == Err(StoreError::Dark)
    }

    // Whether a read and a store at b answer that it is outside.
    fn outside<D: Device>(drive: &mut D, b: usize) -> bool {
        unread(drive, b) == Some(ReadError::Outside)
            && drive.store(b, &[1; 512]) == Err(StoreError::Outside)
    }

    // The number of the first of 20 stores at block 0 that is not done.
    fn first_cut<D: Device>(drive: &mut D) -> Option<u32> {
        (1..21).find(|_| !done(drive, 0, 1))
    }

    // Whether the cuts of `in_turn` come one after each light, and none after the last.
    fn cut_in_turn<D: Device>(drive: &mut D) -> bool {
        for n in 1..9 {
            if first_cut(drive) != Some(n) {
                return false;
            }
            drive.light();
        }
        first_cut(drive).is_none()
    }

    #[test]
    fn each_light_arms_the_next_cut(rt: HostRuntime) -> Result<(), Fail> {
        assert!(rt; cut_in_turn(&mut trial(rt.alloc(), 1, in_turn())?));
        Ok(())
    }

    #[test]
    fn light_through_a_skew_arms_one_cut(rt: HostRuntime) -> Result<(), Fail> {
        assert!(rt;
            cut_in_turn(&mut Skew::new(trial(rt.alloc(), 32, in_turn())?, Factor::try_from(7)?))
        );
        Ok(())
    }

    #[test]
    fn light_on_a_lit_drive_arms_the_next_cut(rt: HostRuntime) -> Result<(), Fail> {
        let mut drive = trial(rt.alloc(), 1, in_turn())?;
        drive.light();
        drive.light();
        assert_eq!(rt; first_cut(&mut drive), Some(3));
        Ok(())
    }

    #[test]
    fn number_that_is_not_reached_never_cuts(rt: HostRuntime) -> Result<(), Fail> {
        for at in [0, 21, u32::MAX] {
            assert_eq!(rt; first_cut(&mut trial_of_one(rt.alloc(), old(at))?), None);
        }
        Ok(())
    }

    #[test]
    fn each_manner_of_cut_leaves_its_block(rt: HostRuntime) -> Result<(), Fail> {
        for (manner, left) in [
            (Manner::Old, Some(1)),
            (Manner::New, Some(2)),
            (Manner::Unreadable, None),
        ] {
            let mut drive = trial_of_one(rt.alloc(), Cut { at: 3, manner })?;
            assert!(rt; done(&mut drive, 0, 1) && done(&mut drive, 1, 5) && dark(&mut drive, 0, 2));
            drive.light();
            let leaves = match left {
                Some(x) => holds(&drive, 0, x),
                None => unread(&drive, 0) == Some(ReadError::Unreadable),
            };
            assert!(rt; leaves && holds(&drive, 1, 5));
        }
        Ok(())
    }

    #[test]
    fn dark_drive_stores_nothing_until_light(rt: HostRuntime) -> Result<(), Fail> {
        let mut drive = trial_of_one(rt.alloc(), old(2))?;
        assert!(rt; done(&mut drive, 0, 1) && dark(&mut drive, 1, 2));
        assert!(rt; dark(&mut drive, 0, 3) && dark(&mut drive, 1, 3) && outside(&mut drive, 2));
        assert!(rt; unread(&drive, 0) == Some(ReadError::Dark));
        drive.light();
        assert!(rt; holds(&drive, 0, 1) && holds(&drive, 1, 0) && done(&mut drive, 1, 3));
        Ok(())
    }

    #[test]
    fn done_store_makes_a_block_readable(rt: HostRuntime) -> Result<(), Fail> {
        for mark in [1, 2, 255] {
            let marks = vec![in rt.alloc(); 0u8, mark]?;
            let mut drive = Trial::new(vec![in rt.alloc(); 3u8; 1024]?, marks, in_turn());
            drive.light();
            assert!(rt; unread(&drive, 1) == Some(ReadError::Unreadable));
            assert!(rt; done(&mut drive, 1, 4) && holds(&drive, 0, 3) && holds(&drive, 1, 4));
            let (bytes, marks) = drive.into_parts();
            assert_eq!(rt;
                (bytes.get(1023).copied(), marks.get(1).copied()),
                (Some(4), Some(0))
            );
        }
        Ok(())
    }

    #[test]
    fn size_is_the_fewer_of_blocks_and_marks(rt: HostRuntime) -> Result<(), Fail> {
        for (bytes, marks, size) in [
            (0, 0, 0),
            (511, 1, 0),
            (512, 1, 1),
            (1024, 3, 2),
            (1535, 3, 2),
            (1536, 2, 2),
        ] {
            let image = vec![in rt.alloc(); 6u8; bytes]?;
            let mut drive = Trial::new(image, vec![in rt.alloc(); 0u8; marks]?, [old(1); 8]);
            assert_eq!(rt; drive.size(), size);
            assert!(rt; outside(&mut drive, size) && outside(&mut drive, usize::MAX));
        }
        Ok(())
    }

    #[test]
    fn image_keeps_the_bytes_past_its_last_block(rt: HostRuntime) -> Result<(), Fail> {
        let mut drive = Image::new(vec![in rt.alloc(); 6u8; 1030]?);
        assert!(rt; drive.size() == 2 && outside(&mut drive, 2) && outside(&mut drive, usize::MAX));
        assert!(rt; done(&mut drive, 1, 4) && holds(&drive, 1, 4) && holds(&drive, 0, 6));
        let bytes = drive.into_bytes();
        assert_eq!(rt; bytes.len(), 1030);
        for (at, x) in [(511, 6), (512, 4), (1023, 4), (1024, 6), (1029, 6)] {
            assert_eq!(rt; bytes.get(at).copied(), Some(x));
        }
        Ok(())
    }

    // Whether every block that is stored through the skew stands at its place below. The drive has
    // 70 blocks of zeros, of which the skew has 64.
    fn placed<D: Device + Drop>(drive: D, factor: Factor) -> bool {
        let mut above = Skew::new(drive, factor);
        let mut right = above.size() == 64 && outside(&mut above, 64);
        for b in 0..64 {
            let at = usize::from(b);
            right &= done(&mut above, at, 1 + b) && holds(&above, at, 1 + b);
        }
        let below = above.into_inner();
        for b in 0..64 {
            right &= holds(&below, factor.place(usize::from(b)), 1 + b);
        }
        for b in 64..70 {
            right &= holds(&below, b, 0);
        }
        right
    }

    #[test]
    fn skew_stores_each_block_at_its_place(rt: HostRuntime) -> Result<(), Fail> {
        let factor = Factor::try_from(7)?;
        for (b, at) in [(0, 0), (1, 7), (5, 3), (31, 25), (37, 35), (63, 57)] {
            assert_eq!(rt; factor.place(b), at);
        }
        assert!(rt; placed(trial(rt.alloc(), 70, [Cut::NEVER; 8])?, factor));
        assert!(rt; placed(Image::new(vec![in rt.alloc(); 0u8; 512 * 70 + 9]?), factor));
        Ok(())
    }

    #[test]
    fn factor_is_odd_and_at_most_31(rt: HostRuntime) -> Result<(), Fail> {
        for k in [1, 7, 31] {
            assert!(rt; Factor::try_from(k).is_ok());
        }
        for k in [0, 8, 32, 33, u32::MAX] {
            match Factor::try_from(k) {
                Ok(_) => return Err(Fail::new(k)),
                Err(refusal) => {
                    let text = format!(in rt.alloc(); "{}: {refusal}", refusal.number())?;
                    assert_eq!(rt;
                        text.as_str(),
                        "9: refused 9: a skew factor is an odd number from 1 to 31"
                    );
                }
            }
        }
        Ok(())
    }
}
