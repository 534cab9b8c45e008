//! Which numbers make a store.
use super::*;
use std::test::*;

#[test]
fn the_table_and_a_page_for_each_file_find_room(rt: HostRuntime) -> Result<(), Fail> {
    let table = [
        (0, 2, None),
        (1, 1, None),
        (1, 2, Some(2)),
        (1, 65536, Some(2)),
        (1, 65537, None),
        (60, 60, None),
        (60, 61, Some(61)),
        // From here on the table has parts.
        (61, 62, None),
        (61, 63, Some(63)),
        (63, 65, Some(65)),
        (64, 66, None),
        (64, 67, Some(67)),
        (4032, 4096, None),
        (4032, 4097, Some(4097)),
        (4033, 65536, None),
    ];
    for (files, blocks, used) in table {
        let store = NewStore::of(7, files, blocks);
        assert_eq!(rt;
            store.map(|s| s.used_blocks()),
            used,
            "{files} files, {blocks} blocks"
        );
    }
    Ok(())
}
