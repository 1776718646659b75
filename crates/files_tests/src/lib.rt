//! Tests of what is read of a file.

#![tactic(auto)]

#[cfg(test)]
mod tests {
    use files::first_bytes;
    use std::process::Abort;
    use std::test::Fail;

    #[test]
    fn enough_bytes_or_all(rt: HostRuntime) -> Result<(), Fail> {
        let heap = rt.alloc();
        let bytes: &[u8] = &[65, 66, 67, 68];
        assert_eq!(rt; first_bytes(heap, bytes, 3)?.as_slice(), &bytes[..3]);
        assert_eq!(rt; first_bytes(heap, bytes, 4)?.as_slice(), bytes);
        assert_eq!(rt; first_bytes(heap, bytes, 5)?.as_slice(), bytes);
        Ok(())
    }
}
