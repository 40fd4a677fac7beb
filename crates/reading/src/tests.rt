use super::*;
use std::test::Fail;

// The whole of a short file is one chunk.
#[test]
fn a_short_file_is_read_whole(rt: HostRuntime) -> Result<(), Fail> {
    let mut file = b"E 00\n# 01".as_slice();
    let mut buffer = [0u8; 16];
    let chunk = read_chunk(&mut file, &mut buffer);
    assert_eq!(rt; chunk, b"E 00\n# 01".as_slice());
    assert!(rt; at_end(&mut file));
    Ok(())
}

// A file of more than one chunk is read as far as the chunks go.
#[test]
fn a_long_file_is_read_as_far_as_the_chunks_go(rt: HostRuntime) -> Result<(), Fail> {
    let mut file = [b'a'; 65537].as_slice();
    let mut buffer = [0u8; 65536];
    assert_eq!(rt; read_chunk(&mut file, &mut buffer).len(), 65536);
    let mut left = file;
    assert!(rt; !at_end(&mut left));
    assert_eq!(rt; read_chunk(&mut file, &mut buffer).len(), 1);
    assert!(rt; at_end(&mut file));
    Ok(())
}
