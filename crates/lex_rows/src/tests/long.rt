// Texts of 1,048,576 bytes.
use super::*;

// A text of a front, so many units, and a back.
fn built(
    alloc: Global,
    front: &str,
    unit: &str,
    count: u64,
    back: &str,
) -> Result<Vec<u8>, AllocError> {
    let mut text = front.as_bytes().to_vec(alloc)?;
    for _ in 0..count {
        text.extend_from_slice(unit.as_bytes())?;
    }
    text.extend_from_slice(back.as_bytes())?;
    Ok(text)
}

#[test]
fn long_texts(rt: HostRuntime) -> Result<(), Fail> {
    let alloc = rt.alloc();
    for (text, wanted, count) in [
        (("", "(", ""), ("", "S", ""), 1_048_576),
        (("", "<=>x1 7+", ""), ("", "SssNn.DS", ""), 131_072),
        (("a", "a", "a"), ("N", "n", "n"), 1_048_574),
        (("0", "0", "1"), ("D", "d", "d"), 1_048_574),
        (("\"", "a", "\""), ("T", "t", "t"), 1_048_574),
        (("\"", "\\n", "\""), ("T", "tt", "t"), 524_287),
        (("/*", "*", "*/"), ("..", ".", ".."), 1_048_572),
        (("//", "/", "/\n"), ("..", ".", ".."), 1_048_572),
        (("", " ", ""), ("", ".", ""), 1_048_576),
    ] {
        let (front, unit, back) = text;
        let text = built(alloc, front, unit, count, back)?;
        assert_eq!(rt; text.len(), 1_048_576);
        let (front, unit, back) = wanted;
        let wanted = built(alloc, front, unit, count, back)?;
        let shown = shown(alloc, text.as_slice())?;
        assert!(rt; shown.as_slice() == wanted.as_slice(), "of {unit}");
    }
    Ok(())
}
