// Tests of root blocks, words and index entries, against bytes that are written out here.
#![tactic(auto)]

#[cfg(test)]
mod tests {
    use map::{Identifier, Kind};
    use object::{
        Root, RootBlock, block_of_words, index_entry, index_place, replace_words, set_index_entry,
        words_of_block,
    };
    use std::array;
    use std::test::Fail;

    // These bytes from `at` on, as far as they stay in the block.
    fn put(block: &mut [u8; 512], at: usize, bytes: &[u8]) {
        for (old, new) in block.iter_mut().skip(at).zip(bytes) {
            *old = *new;
        }
    }

    // Tag 0x01020304 at root place 34.
    fn named() -> Result<Identifier, Fail> {
        let id = Identifier::new(0x0102_0304, 34).ok_or("no identifier")?;
        Ok(id)
    }

    // Blocks 5, 31, 37 and 63 at positions 0, 1, 2 and 63.
    fn four_blocks() -> [u16; 64] {
        let mut blocks = [0; 64];
        blocks[0] = 5;
        blocks[1] = 31;
        blocks[2] = 37;
        blocks[63] = 63;
        blocks
    }

    // The bytes of a root block of this tag and kind, with those four blocks, for root place 34.
    fn four_blocks_written(tag: [u8; 4], kind: u8) -> [u8; 512] {
        let mut block = [0; 512];
        put(&mut block, 0, &tag);
        put(&mut block, 4, &[34, 0, 0, 0, kind]);
        put(&mut block, 16, &[5, 0, 31, 0, 37]);
        put(&mut block, 142, &[63]);
        block
    }

    // Whether these are the bytes of this root block at place 34, in a volume of two cylinders.
    fn stands(block: &[u8; 512], root: RootBlock) -> bool {
        RootBlock::decode(block, 34, 2) == Some(root) && root.encode() == *block
    }

    #[test]
    fn root_blocks_are_read_and_written_again(rt: HostRuntime) -> Result<(), Fail> {
        assert!(rt; stands(&[0; 512], RootBlock::Dead));
        let id = named()?;
        for (number, kind) in [(1, Kind::Normal), (2, Kind::Special), (3, Kind::Index)] {
            let mut block = four_blocks_written([4, 3, 2, 1], number);
            let blocks = four_blocks();
            assert!(rt; stands(&block, RootBlock::Live(Root { id, kind, blocks })));
            put(&mut block, 16, &[0; 128]);
            let blocks = [0; 64];
            assert!(rt; stands(&block, RootBlock::Live(Root { id, kind, blocks })));
        }
        Ok(())
    }

    // Whether a root block may stand at place 34, in a volume of two cylinders.
    fn passes(block: &[u8; 512]) -> bool {
        RootBlock::decode(block, 34, 2).is_some()
    }

    #[test]
    fn root_block_with_one_fault_is_refused(rt: HostRuntime) {
        let sound = four_blocks_written([7, 0, 0, 0], 1);
        assert!(rt; passes(&sound));
        for (at, x) in [
            (0, 0),
            (4, 33),
            (5, 1),
            (8, 0),
            (8, 4),
            (9, 1),
            (15, 1),
            (16, 4),
            (18, 69),
            (17, 1),
            (144, 1),
            (511, 1),
        ] {
            let mut block = sound;
            put(&mut block, at, &[x]);
            assert!(rt; !passes(&block), "{}", at);
        }
        for at in [0, 4, 8, 16, 511] {
            let mut block = [0; 512];
            put(&mut block, at, &[1]);
            assert!(rt; !passes(&block), "{}", at);
        }
        assert_eq!(rt; RootBlock::decode(&sound, 33, 2), None);
        assert_eq!(rt; RootBlock::decode(&sound, 34, 1), None);
    }

    #[test]
    fn words_stand_low_byte_first(rt: HostRuntime) {
        let block = array::from_fn(|i| (i % 256) as u8);
        let words = words_of_block(&block);
        for (i, w) in [
            (0, 0x0100),
            (1, 0x0302),
            (127, 0xfffe),
            (128, 0x0100),
            (255, 0xfffe),
        ] {
            assert_eq!(rt; words.get(i).copied(), Some(w));
        }
        assert!(rt; block_of_words(&words) == block);
    }

    // Whether the words of a block are these from `first` on, and 0x0707 elsewhere.
    fn has_run(block: &[u8; 512], first: usize, new: &[u16]) -> bool {
        words_of_block(block).iter().enumerate().all(|(i, word)| {
            let placed = i.checked_sub(first).and_then(|k| new.get(k).copied());
            *word == placed.unwrap_or(0x0707)
        })
    }

    #[test]
    fn run_of_words_is_replaced_or_refused(rt: HostRuntime) {
        let three = [1, 0x0200, 0xffff];
        for first in [0, 100, 253] {
            let mut block = [7; 512];
            assert!(rt; replace_words(&mut block, first, &three) && has_run(&block, first, &three));
        }
        for first in [0, 100, 256] {
            let mut block = [7; 512];
            assert!(rt; replace_words(&mut block, first, &[]) && block == [7; 512]);
        }
        for first in [254, 256, 257, usize::MAX] {
            let mut block = [7; 512];
            assert!(rt; !replace_words(&mut block, first, &three) && block == [7; 512]);
        }
        let mut block = [7; 512];
        assert!(rt; !replace_words(&mut block, 257, &[]) && block == [7; 512]);
        assert!(rt; !replace_words(&mut block, 0, &[9; 257]) && block == [7; 512]);
        assert!(rt; replace_words(&mut block, 0, &[9; 256]) && has_run(&block, 0, &[9; 256]));
    }

    // A block of bytes 255, but for an entry's eight.
    fn entry_at(at: usize, bytes: &[u8; 8]) -> [u8; 512] {
        let mut block = [255; 512];
        put(&mut block, at, bytes);
        block
    }

    #[test]
    fn index_entry_is_written_and_its_neighbours_stay(rt: HostRuntime) -> Result<(), Fail> {
        let id = named()?;
        for (e, position, at) in [(0, 0, 0), (63, 0, 504), (64, 1, 0), (4095, 63, 504)] {
            assert_eq!(rt; index_place(e), (position, at));
            let mut block = [255; 512];
            assert_eq!(rt; index_entry(&block, e), None);
            set_index_entry(&mut block, e, Some(id));
            assert!(rt; block == entry_at(at, &[4, 3, 2, 1, 34, 0, 0, 0]));
            assert_eq!(rt; index_entry(&block, e), Some(id));
            set_index_entry(&mut block, e, None);
            assert!(rt; block == entry_at(at, &[0; 8]));
            assert_eq!(rt; index_entry(&block, e), None);
        }
        Ok(())
    }

    #[test]
    fn bytes_that_are_no_identifier_read_as_none(rt: HostRuntime) {
        for (bytes, is_one) in [
            ([7, 0, 0, 0, 1, 0, 0, 0], true),
            ([7, 0, 0, 0, 225, 7, 0, 0], true),
            ([0, 0, 0, 0, 1, 0, 0, 0], false),
            ([7, 0, 0, 0, 0, 0, 0, 0], false),
            ([7, 0, 0, 0, 5, 0, 0, 0], false),
            ([7, 0, 0, 0, 1, 8, 0, 0], false),
        ] {
            assert_eq!(rt; index_entry(&entry_at(8, &bytes), 1).is_some(), is_one);
        }
    }
}
