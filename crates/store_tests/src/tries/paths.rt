// Hashes and indices from outside: FNV-1a's published values, and the indices worked out by hand from their bits.
use hash_path::{Fnv1a, PathHash, SameHash, index_at};

// Whether the hash of a key is this one, and its seven indices are these.
fn has_path(key: &[u8], hash: u32, path: &[u32; 7]) -> bool {
    let mut same = Fnv1a.hash(key) == hash;
    for depth in [7, 8, 31, u32::MAX] {
        same = same && index_at(hash, depth).is_none();
    }
    for depth in 0u32..7 {
        same = same && index_at(hash, depth) == Some(path[depth as usize]);
    }
    same
}

const PATHS: &[(&[u8], u32, [u32; 7])] = &[
    (b"", 0x811c_9dc5, [5, 14, 7, 25, 17, 0, 2]),
    (b"a", 0xe40c_292c, [12, 9, 10, 24, 0, 18, 3]),
    (b"b", 0xe70c_2de5, [5, 15, 11, 24, 16, 19, 3]),
    (b"c", 0xe60c_2c52, [18, 2, 11, 24, 0, 19, 3]),
    (b"foobar", 0xbf9c_f968, [8, 11, 30, 25, 25, 31, 2]),
];

#[test]
fn fnv1a_gives_its_published_values(rt: HostRuntime) {
    for (key, hash, path) in PATHS {
        assert!(rt; has_path(key, *hash, path), "{hash}");
    }
    assert!(rt; SameHash::default().hash(b"a") == 0);
}
