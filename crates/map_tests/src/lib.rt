// Tests of addresses, identifiers and cylinder maps, on bytes written out. A volume here has two
// cylinders unless a test says otherwise.
#![tactic(auto)]

#[cfg(test)]
mod tests {
    use map::{
        DataState, Entry, Identifier, Kind, NoKind, NoState, RootState, decode_map, encode_map,
        split,
    };
    use std::process::Abort;
    use std::test::Fail;

    #[test]
    fn good_bytes_are_read_and_written_again(rt: HostRuntime) -> Result<(), Fail> {
        for (a, bytes) in [
            // the map of cylinder 0, and of cylinder 1
            (0, [1, 0, 0, 0, 0, 0, 0, 0, 0, 0, 0, 0, 0, 0, 0, 0]),
            (32, [1, 0, 0, 0, 0, 0, 0, 0, 0, 0, 0, 0, 1, 0, 0, 0]),
            // free root places
            (1, [0, 0, 0, 0, 0, 0, 0, 0, 0, 0, 0, 0, 0, 0, 0, 0]),
            (36, [0, 0, 0, 0, 0, 0, 0, 0, 0, 0, 0, 0, 0, 0, 0, 0]),
            // free data blocks
            (5, [0, 0, 0, 0, 0, 0, 0, 0, 0, 0, 0, 0, 0, 0, 0, 0]),
            (63, [0, 0, 0, 0, 0, 0, 0, 0, 0, 0, 0, 0, 0, 0, 0, 0]),
            // root places, first and last of each cylinder
            (1, [1, 1, 0, 0, 0, 0, 0, 0, 5, 0, 0, 0, 1, 0, 0, 0]),
            (4, [1, 2, 1, 0, 0, 0, 0, 0, 5, 0, 0, 0, 4, 0, 0, 0]),
            (33, [3, 3, 0, 0, 0, 0, 0, 0, 5, 0, 0, 0, 33, 0, 0, 0]),
            (36, [3, 1, 1, 0, 0, 0, 0, 0, 5, 0, 0, 0, 36, 0, 0, 0]),
            // a root place with the greatest tag
            (
                36,
                [1, 1, 0, 0, 0, 0, 0, 0, 255, 255, 255, 255, 36, 0, 0, 0],
            ),
            // data blocks, first and last of each cylinder
            (5, [1, 0, 0, 0, 0, 0, 0, 0, 5, 0, 0, 0, 1, 0, 0, 0]),
            (31, [2, 0, 0, 0, 0, 0, 0, 0, 5, 0, 0, 0, 4, 0, 0, 0]),
            (37, [3, 0, 0, 0, 0, 0, 0, 0, 5, 0, 0, 0, 33, 0, 0, 0]),
            (63, [1, 0, 0, 0, 0, 0, 0, 0, 5, 0, 0, 0, 36, 0, 0, 0]),
            // the last position
            (37, [1, 0, 0, 63, 0, 0, 0, 0, 5, 0, 0, 0, 33, 0, 0, 0]),
            // an owner in the other cylinder
            (37, [1, 0, 0, 0, 0, 0, 0, 0, 5, 0, 0, 0, 2, 0, 0, 0]),
            (6, [1, 0, 0, 0, 0, 0, 0, 0, 5, 0, 0, 0, 34, 0, 0, 0]),
            // an owner with the greatest tag
            (
                37,
                [1, 0, 0, 0, 0, 0, 0, 0, 255, 255, 255, 255, 33, 0, 0, 0],
            ),
        ] {
            let entry = Entry::decode(&bytes, a, 2).ok_or(bytes)?;
            assert_eq!(rt; entry.encode(a), bytes);
        }
        Ok(())
    }

    // Whether the bytes are no entry of address `a`.
    fn ill_formed(rt: &impl Abort, bytes: [u8; 16], a: u32) {
        assert_eq!(rt; Entry::decode(&bytes, a, 2), None, "{bytes:?} at {a}");
    }

    #[test]
    fn one_wrong_byte_makes_an_entry_ill_formed(rt: HostRuntime) {
        for (a, bytes) in [
            // a map with state 0, 2, 3
            (0, [0, 0, 0, 0, 0, 0, 0, 0, 0, 0, 0, 0, 0, 0, 0, 0]),
            (0, [2, 0, 0, 0, 0, 0, 0, 0, 0, 0, 0, 0, 0, 0, 0, 0]),
            (0, [3, 0, 0, 0, 0, 0, 0, 0, 0, 0, 0, 0, 0, 0, 0, 0]),
            // with the number of another cylinder
            (0, [1, 0, 0, 0, 0, 0, 0, 0, 0, 0, 0, 0, 1, 0, 0, 0]),
            (32, [1, 0, 0, 0, 0, 0, 0, 0, 0, 0, 0, 0, 0, 0, 0, 0]),
            // with kind 1
            (0, [1, 1, 0, 0, 0, 0, 0, 0, 0, 0, 0, 0, 0, 0, 0, 0]),
            // with a tag
            (0, [1, 0, 0, 0, 0, 0, 0, 0, 5, 0, 0, 0, 0, 0, 0, 0]),
            // a root place with state 2, 4
            (33, [2, 1, 0, 0, 0, 0, 0, 0, 5, 0, 0, 0, 33, 0, 0, 0]),
            (33, [4, 1, 0, 0, 0, 0, 0, 0, 5, 0, 0, 0, 33, 0, 0, 0]),
            // with state 0 and all else as before
            (33, [0, 1, 0, 0, 0, 0, 0, 0, 5, 0, 0, 0, 33, 0, 0, 0]),
            // with kind 0, 4
            (33, [1, 0, 0, 0, 0, 0, 0, 0, 5, 0, 0, 0, 33, 0, 0, 0]),
            (33, [1, 4, 0, 0, 0, 0, 0, 0, 5, 0, 0, 0, 33, 0, 0, 0]),
            // with commit bit 2
            (33, [1, 1, 2, 0, 0, 0, 0, 0, 5, 0, 0, 0, 33, 0, 0, 0]),
            // with position 1
            (33, [1, 1, 0, 1, 0, 0, 0, 0, 5, 0, 0, 0, 33, 0, 0, 0]),
            // with a byte from 4 to 7 that is not zero
            (33, [1, 1, 0, 0, 1, 0, 0, 0, 5, 0, 0, 0, 33, 0, 0, 0]),
            (33, [1, 1, 0, 0, 0, 1, 0, 0, 5, 0, 0, 0, 33, 0, 0, 0]),
            (33, [1, 1, 0, 0, 0, 0, 1, 0, 5, 0, 0, 0, 33, 0, 0, 0]),
            (33, [1, 1, 0, 0, 0, 0, 0, 1, 5, 0, 0, 0, 33, 0, 0, 0]),
            // with tag 0
            (33, [1, 1, 0, 0, 0, 0, 0, 0, 0, 0, 0, 0, 33, 0, 0, 0]),
            // with the address of the next place, of another cylinder
            (33, [1, 1, 0, 0, 0, 0, 0, 0, 5, 0, 0, 0, 34, 0, 0, 0]),
            (33, [1, 1, 0, 0, 0, 0, 0, 0, 5, 0, 0, 0, 1, 0, 0, 0]),
            // a data block with state 4
            (37, [4, 0, 0, 0, 0, 0, 0, 0, 5, 0, 0, 0, 33, 0, 0, 0]),
            // with state 0 and all else as before
            (37, [0, 0, 0, 0, 0, 0, 0, 0, 5, 0, 0, 0, 33, 0, 0, 0]),
            // with kind 1
            (37, [1, 1, 0, 0, 0, 0, 0, 0, 5, 0, 0, 0, 33, 0, 0, 0]),
            // with commit bit 1
            (37, [1, 0, 1, 0, 0, 0, 0, 0, 5, 0, 0, 0, 33, 0, 0, 0]),
            // with position 64
            (37, [1, 0, 0, 64, 0, 0, 0, 0, 5, 0, 0, 0, 33, 0, 0, 0]),
            // with byte 4 not zero
            (37, [1, 0, 0, 0, 1, 0, 0, 0, 5, 0, 0, 0, 33, 0, 0, 0]),
            // with tag 0
            (37, [1, 0, 0, 0, 0, 0, 0, 0, 0, 0, 0, 0, 33, 0, 0, 0]),
            // with an owner at sector 0, at sector 5
            (37, [1, 0, 0, 0, 0, 0, 0, 0, 5, 0, 0, 0, 32, 0, 0, 0]),
            (37, [1, 0, 0, 0, 0, 0, 0, 0, 5, 0, 0, 0, 37, 0, 0, 0]),
            // with an owner in cylinder 2, in cylinder 64
            (37, [1, 0, 0, 0, 0, 0, 0, 0, 5, 0, 0, 0, 65, 0, 0, 0]),
            (37, [1, 0, 0, 0, 0, 0, 0, 0, 5, 0, 0, 0, 1, 8, 0, 0]),
        ] {
            ill_formed(&rt, bytes, a);
        }
        // a free place with one byte that is not zero
        for i in 1..16 {
            let mut bytes = [0; 16];
            bytes[i] = 1;
            ill_formed(&rt, bytes, 33);
            ill_formed(&rt, bytes, 37);
        }
        // cylinder 64 is none in any volume
        let beyond = [1, 0, 0, 0, 0, 0, 0, 0, 5, 0, 0, 0, 1, 8, 0, 0];
        assert_eq!(rt; Entry::decode(&beyond, 37, u32::MAX), None);
        // fifteen bytes, and seventeen
        assert_eq!(rt; Entry::decode(&[0; 15], 33, 2), None);
        assert_eq!(rt; Entry::decode(&[0; 17], 33, 2), None);
    }

    // Whether the bytes at address `a` are this entry, and back.
    fn says(rt: &impl Abort, bytes: [u8; 16], a: u32, entry: Entry) {
        assert_eq!(rt; Entry::decode(&bytes, a, 2), Some(entry));
        assert_eq!(rt; entry.encode(a), bytes);
    }

    #[test]
    fn entry_is_what_its_bytes_say(rt: HostRuntime) -> Result<(), Fail> {
        for (s, state) in [
            (1, RootState::Allocated),
            (3, RootState::IntendingToDeallocate),
        ] {
            for (k, kind) in [(1, Kind::Normal), (2, Kind::Special), (3, Kind::Index)] {
                for (c, commit) in [(0, false), (1, true)] {
                    let tag = 0x04030201;
                    says(
                        &rt,
                        [s, k, c, 0, 0, 0, 0, 0, 1, 2, 3, 4, 36, 0, 0, 0],
                        36,
                        Entry::Root {
                            state,
                            kind,
                            commit,
                            tag,
                        },
                    );
                }
            }
        }
        let owner = Identifier::new(0x04030201, 36).ok_or("an owner")?;
        for (s, state) in [
            (1, DataState::Allocated),
            (2, DataState::IntendingToAllocate),
            (3, DataState::IntendingToDeallocate),
        ] {
            for position in [0, 1, 63] {
                says(
                    &rt,
                    [s, 0, 0, position, 0, 0, 0, 0, 1, 2, 3, 4, 36, 0, 0, 0],
                    5,
                    Entry::Data {
                        state,
                        position,
                        owner,
                    },
                );
            }
        }
        says(
            &rt,
            [1, 0, 0, 0, 0, 0, 0, 0, 0, 0, 0, 0, 1, 0, 0, 0],
            32,
            Entry::Map,
        );
        says(&rt, [0; 16], 33, Entry::Free);
        says(&rt, [0; 16], 37, Entry::Free);
        Ok(())
    }

    #[test]
    fn numbers_stand_for_kinds_and_states(rt: HostRuntime) -> Result<(), Fail> {
        for (n, kind) in [(1, Kind::Normal), (2, Kind::Special), (3, Kind::Index)] {
            assert_eq!(rt; u8::from(kind), n);
            assert_eq!(rt; Kind::try_from(n), Ok(kind));
        }
        for (n, state) in [
            (1, RootState::Allocated),
            (3, RootState::IntendingToDeallocate),
        ] {
            assert_eq!(rt; u8::from(state), n);
            assert_eq!(rt; RootState::try_from(n), Ok(state));
        }
        for (n, state) in [
            (1, DataState::Allocated),
            (2, DataState::IntendingToAllocate),
            (3, DataState::IntendingToDeallocate),
        ] {
            assert_eq!(rt; u8::from(state), n);
            assert_eq!(rt; DataState::try_from(n), Ok(state));
        }
        for n in [0, 4, 255] {
            assert_eq!(rt; Kind::try_from(n), Err(NoKind(n)));
            assert_eq!(rt; RootState::try_from(n), Err(NoState(n)));
            assert_eq!(rt; DataState::try_from(n), Err(NoState(n)));
        }
        assert_eq!(rt; RootState::try_from(2), Err(NoState(2)));
        let text = format!(in rt.alloc(); "{}, {}", NoKind(4), NoState(0))?;
        assert_eq!(rt;
            text.as_str(),
            "no kind has number 4, no state has number 0"
        );
        Ok(())
    }

    #[test]
    fn empty_map_returns_and_no_entry_of_it_may_be_wrong(rt: HostRuntime) -> Result<(), Fail> {
        for cylinder in [0, 1] {
            let mut block = [0; 512];
            block[0] = 1;
            block[12] = cylinder;
            let entries = decode_map(&block, cylinder, 2).ok_or("an empty map")?;
            let mut empty = [Entry::Free; 32];
            empty[0] = Entry::Map;
            assert!(rt; entries == empty);
            assert!(rt; encode_map(&entries, cylinder) == block);
            assert!(rt; decode_map(&block, 1 - cylinder, 2).is_none());
            for s in 0..32 {
                let mut wrong = block;
                wrong[16 * s] = 4;
                assert!(rt; decode_map(&wrong, cylinder, 2).is_none(), "{}", s);
            }
        }
        Ok(())
    }

    // Cylinder 0 with no free sector: root places 1 to 4, and data blocks of root place 1, with the
    // sector as tag.
    #[test]
    fn full_map_has_each_entry_in_its_place(rt: HostRuntime) -> Result<(), Fail> {
        let mut block = [0; 512];
        let mut entries = [Entry::Map; 32];
        for (sector, entry) in entries.iter_mut().enumerate() {
            let s = sector as u8;
            let at = 16 * sector;
            block[at] = 1;
            block[at + 8] = s;
            *entry = match s {
                0 => Entry::Map,
                1..=4 => {
                    block[at + 1] = 2;
                    block[at + 12] = s;
                    Entry::Root {
                        state: RootState::Allocated,
                        kind: Kind::Special,
                        commit: false,
                        tag: u32::from(s),
                    }
                }
                _ => {
                    block[at + 3] = s;
                    block[at + 12] = 1;
                    Entry::Data {
                        state: DataState::Allocated,
                        position: s,
                        owner: Identifier::new(u32::from(s), 1).ok_or("an owner")?,
                    }
                }
            };
        }
        assert!(rt; decode_map(&block, 0, 2) == Some(entries));
        assert!(rt; encode_map(&entries, 0) == block);
        Ok(())
    }

    #[test]
    fn identifier_is_a_tag_and_a_root_place_of_64_cylinders(rt: HostRuntime) {
        for (a, cylinder, sector) in [
            (0, 0, 0),
            (31, 0, 31),
            (32, 1, 0),
            (37, 1, 5),
            (u32::MAX, 134217727, 31),
        ] {
            assert_eq!(rt; split(a), (cylinder, sector));
        }
        for (tag, root, good) in [
            (0, 1, false),
            (1, 0, false),
            (1, 1, true),
            (u32::MAX, 4, true),
            (1, 5, false),
            // cylinder 63: sectors 0, 1, 4, 5, 28 and 29
            (1, 2016, false),
            (1, 2017, true),
            (1, 2020, true),
            (1, 2021, false),
            (1, 2044, false),
            (1, 2045, false),
            // cylinder 64
            (1, 2049, false),
            // the last sector of all, and the last that would be a root place
            (1, u32::MAX, false),
            (1, u32::MAX - 27, false),
        ] {
            let made = Identifier::new(tag, root).map(|id| (id.tag(), id.root()));
            assert_eq!(rt; made, good.then_some((tag, root)));
        }
    }
}
