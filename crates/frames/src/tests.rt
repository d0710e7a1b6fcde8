// Lines that are no frames, with the places of their faults, and lines that are.
use crate::{FrameKind, TextFault, UnknownKind, read_frame};
use std::test::Fail;

const MALFORMED: [(&[u8], usize); 16] = [
    (b"", 0),
    (b"1", 0),
    (b"g", 0),
    (b"0", 1),
    (b"2", 1),
    (b"00", 1),
    (b"05", 1),
    (b"0x", 1),
    (b"21", 1),
    (b"01", 2),
    (b"01xy", 2),
    (b"01020", 5),
    (b"20000z", 5),
    (b"0102031", 6),
    (b"04\r", 2),
    (b"0200000000011", 12),
];

const FRAMES: [(&[u8], u8); 6] = [
    (b"0104ff", 0x01),
    (b"0201000000aB", 0x02),
    (b"0300000003E8", 0x03),
    (b"04", 0x04),
    (b"20011f", 0x20),
    (b"20011F", 0x20),
];

#[test]
fn malformed_lines(rt: HostRuntime) -> Result<(), Fail> {
    for (line, place) in MALFORMED {
        assert_eq!(rt; read_frame(line), Err(TextFault { place }));
    }
    Ok(())
}

#[test]
fn whole_lines(rt: HostRuntime) -> Result<(), Fail> {
    for (line, kind) in FRAMES {
        assert_eq!(rt;
            read_frame(line).map(|frame| u8::from(frame.kind())),
            Ok(kind)
        );
    }
    Ok(())
}

#[test]
fn kinds_of_numbers(rt: HostRuntime) -> Result<(), Fail> {
    for (_, number) in FRAMES {
        assert_eq!(rt; FrameKind::try_from(number).map(u8::from), Ok(number));
    }
    assert_eq!(rt; FrameKind::try_from(0x05), Err(UnknownKind(0x05)));
    let message = format!(in rt.alloc(); "{}", UnknownKind(0x21))?;
    assert_eq!(rt; message.as_str(), "no kind of frame has the number 33");
    Ok(())
}
