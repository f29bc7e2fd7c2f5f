// That the definitions say what the format says: files, and their answers by hand.
ghost use Rattle.std.specs.Prelude.{All};
ghost use Rattle.elf_image.specs.Image.{LiesInRam};

use crate::sample_files::{
    BASE, FILE, LARGEST_RAM, RAM, Segment, WORDS, edited, elf, program_header, zeros,
};
use crate::{Blocks, ElfFault, Image, Program, Words, read, write};
use byteorder::{ByteOrder, LittleEndian};
use gc_base::limits::RAM_MAX;
use std::alloc::Global;
use std::process::Abort;
use std::test::Fail;

/// Why a file is refused, if it is.
fn fault(alloc: Global, file: &[u8], ram: u32) -> Option<ElfFault> {
    match read(alloc, file, ram) {
        Ok(_) => None,
        Err(fault) => Some(fault),
    }
}

/// Asks for these pieces: address, bytes, zeros.
fn expect_pieces(rt: &impl Abort, image: &Image, pieces: &[(u64, &[u8], u64)]) {
    assert_eq!(rt; image.pieces.items().len(), pieces.len());
    for (piece, (addr, bytes, zeros)) in image.pieces.items().iter().zip(pieces) {
        assert_eq!(rt; piece.addr, *addr);
        assert!(rt; piece.bytes.items() == *bytes, "the bytes at {addr}");
        assert_eq!(rt; piece.zeros, *zeros);
    }
}

/// Asks for these blocks: address, bytes.
fn expect_blocks(rt: &impl Abort, image: &Image, blocks: &[(u64, &[u8])])
    requires { All (LiesInRam RAM_MAX) image.now.pieces }
{
    let mut given = Blocks::new(image.pieces.items());
    for (addr, bytes) in blocks {
        let Some(block) = given.next() else {
            panic!(rt; "no block at {addr}");
        };
        assert_eq!(rt; block.addr, *addr);
        assert!(rt; block.bytes == *bytes, "the bytes at {addr}");
    }
    assert!(rt; given.next().is_none());
}

#[test]
fn programs_are_written_and_read_back(rt: HostRuntime) -> Result<(), Fail> {
    let alloc = rt.alloc();
    let words = Words::new(Vec::from_slice(alloc, &WORDS)?);
    assert!(rt; words.items() == WORDS.as_slice());
    let file = write(alloc, &Program { words })?;
    assert!(rt; file.as_slice() == FILE.as_slice());
    let image = read(alloc, &file, 20)?;
    assert_eq!(rt; image.entry, BASE);
    expect_pieces(&rt, &image, &[(BASE, &FILE[120..], 0)]);

    let none = Program {
        words: Words::new(Vec::new(alloc)),
    };
    let file = write(alloc, &none)?;
    assert_eq!(rt; file.len(), 120);
    let image = read(alloc, &file, 0)?;
    assert_eq!(rt; image.entry, BASE);
    expect_pieces(&rt, &image, &[]);
    Ok(())
}

#[test]
fn changed_fields_have_their_answers(rt: HostRuntime) -> Result<(), Fail> {
    const HEADER: Option<ElfFault> = Some(ElfFault::Header);
    const CLASS: Option<ElfFault> = Some(ElfFault::Class);
    const ORDER: Option<ElfFault> = Some(ElfFault::Order);
    const KIND: Option<ElfFault> = Some(ElfFault::Kind);
    const MACHINE: Option<ElfFault> = Some(ElfFault::Machine);
    const SEGMENT: Option<ElfFault> = Some(ElfFault::Segment { index: 0 });
    let cases: [(&[(usize, u8)], Option<ElfFault>); 56] = [
        (&[], None),
        // the bytes of ELF: else it is a raw image
        (&[(0, 0x7e)], None),
        (&[(3, 0x47), (4, 1)], None),
        // class, order, kind, machine, and the first of two faults
        (&[(4, 1)], CLASS),
        (&[(4, 3)], CLASS),
        (&[(4, 1), (18, 62)], CLASS),
        (&[(4, 1), (5, 2)], CLASS),
        (&[(5, 0)], ORDER),
        (&[(5, 2)], ORDER),
        (&[(5, 2), (16, 3)], ORDER),
        (&[(16, 1)], KIND),
        (&[(16, 3)], KIND),
        (&[(17, 1)], KIND),
        (&[(16, 3), (18, 62)], KIND),
        (&[(18, 62)], MACHINE),
        (&[(18, 242)], MACHINE),
        (&[(18, 244)], MACHINE),
        (&[(19, 1)], MACHINE),
        (&[(18, 62), (24, 1)], MACHINE),
        // entry: a multiple of 4, wherever it is
        (&[(24, 1)], HEADER),
        (&[(24, 2)], HEADER),
        (&[(24, 3)], HEADER),
        (&[(24, 4)], None),
        (&[(31, 255)], None),
        // place of the table: from 84 on it lies in the file, and there its one header has type 0
        (&[(32, 255)], HEADER),
        (&[(32, 85)], HEADER),
        (&[(32, 84)], None),
        (&[(39, 255)], HEADER),
        // size and count of program headers
        (&[(54, 55)], HEADER),
        (&[(54, 57)], HEADER),
        (&[(55, 1)], HEADER),
        (&[(56, 2)], HEADER),
        (&[(56, 255), (57, 255)], HEADER),
        (&[(56, 0)], None),
        (&[(56, 0), (54, 55)], None),
        (&[(56, 0), (39, 255)], None),
        (&[(56, 0), (24, 1)], HEADER),
        (&[(24, 1), (72, 121)], HEADER),
        // type, place in the file
        (&[(64, 0), (72, 121)], None),
        (&[(64, 2), (72, 121)], None),
        (&[(67, 1), (72, 121)], None),
        (&[(72, 119)], None),
        (&[(72, 121)], SEGMENT),
        (&[(79, 255)], SEGMENT),
        // virtual and physical address
        (&[(83, 0)], None),
        (&[(91, 0x7f)], SEGMENT),
        (&[(91, 0x81)], SEGMENT),
        (&[(95, 255)], SEGMENT),
        // size in the file and in memory
        (&[(96, 19)], None),
        (&[(96, 21)], SEGMENT),
        (&[(103, 255)], SEGMENT),
        (&[(104, 19)], SEGMENT),
        (&[(104, 21)], None),
        (&[(104, 0)], None),
        (&[(104, 0), (91, 0)], None),
        (&[(111, 255)], SEGMENT),
    ];
    for (edits, want) in cases {
        let file = edited(rt.alloc(), edits)?;
        assert_eq!(rt; fault(rt.alloc(), &file, RAM), want, "{edits:?}");
    }
    Ok(())
}

#[test]
fn cut_files_have_their_answers(rt: HostRuntime) {
    for end in 0..141 {
        let want = match end {
            0..4 => None,
            4..120 => Some(ElfFault::Header),
            120..140 => Some(ElfFault::Segment { index: 0 }),
            _ => None,
        };
        assert_eq!(rt; fault(rt.alloc(), &FILE[..end], RAM), want, "cut to {end}");
    }
}

#[test]
fn raw_images_fill_ram_at_most(rt: HostRuntime) -> Result<(), Fail> {
    let alloc = rt.alloc();
    for bytes in [&FILE[1..], &FILE[..3], b"\x7fELG", b"x", b""] {
        let size = bytes.len() as u32;
        let image = read(alloc, bytes, size)?;
        assert_eq!(rt; image.entry, BASE);
        expect_pieces(&rt, &image, &[(BASE, bytes, 0)]);
        if size > 0 {
            assert_eq!(rt;
                fault(alloc, bytes, size - 1),
                Some(ElfFault::Raw),
                "{size}"
            );
        }
    }
    Ok(())
}

#[test]
fn segments_lie_in_ram(rt: HostRuntime) -> Result<(), Fail> {
    const TOP: u64 = BASE + RAM as u64;
    let cases: [(u64, u64, bool); 14] = [
        (BASE, 4096, true),
        (BASE, 4097, false),
        (BASE - 1, 1, false),
        (BASE - 1, 2, false),
        (BASE + 1, 4095, true),
        (BASE + 1, 4096, false),
        (TOP - 1, 1, true),
        (TOP - 1, 2, false),
        (TOP, 0, true),
        (TOP, 1, false),
        (0, u64::MAX, false),
        (u64::MAX, 1, false),
        (u64::MAX, u64::MAX, false),
        (BASE, u64::MAX - BASE + 2, false),
    ];
    for (address, memory_size, accepted) in cases {
        let file = elf(rt.alloc(), &[zeros(address, memory_size)], b"")?;
        let want = if accepted {
            None
        } else {
            Some(ElfFault::Segment { index: 0 })
        };
        assert_eq!(rt;
            fault(rt.alloc(), &file, RAM),
            want,
            "{memory_size} bytes at {address}"
        );
    }
    Ok(())
}

#[test]
fn segments_lie_in_the_file(rt: HostRuntime) -> Result<(), Fail> {
    // 120 bytes of headers, and eight more
    let cases: [(u64, u64, u64, bool); 10] = [
        (120, 8, 8, true),
        (120, 9, 9, false),
        (120, 8, 7, false),
        (128, 0, 1, true),
        (129, 0, 1, false),
        (0, 128, 128, true),
        (0, 129, 129, false),
        (u64::MAX, 1, 1, false),
        (u64::MAX - 7, 16, 16, false),
        (1, u64::MAX, u64::MAX, false),
    ];
    for (offset, file_size, memory_size, accepted) in cases {
        let segment = Segment {
            kind: 1,
            offset,
            address: BASE,
            file_size,
            memory_size,
        };
        let file = elf(rt.alloc(), &[segment], b"abcdefgh")?;
        let want = if accepted {
            None
        } else {
            Some(ElfFault::Segment { index: 0 })
        };
        assert_eq!(rt;
            fault(rt.alloc(), &file, RAM),
            want,
            "{file_size} bytes at {offset}"
        );
    }
    Ok(())
}

#[test]
fn segments_are_counted_over_all_headers(rt: HostRuntime) -> Result<(), Fail> {
    let alloc = rt.alloc();
    let note = Segment {
        kind: 4,
        ..zeros(0, 1)
    };
    let good = zeros(BASE, 16);
    let bad = zeros(0, 1);
    let file = elf(alloc, &[note, zeros(0, 0), good, bad, bad], b"")?;
    assert_eq!(rt;
        fault(alloc, &file, RAM),
        Some(ElfFault::Segment { index: 3 })
    );

    // as many program headers as there can be
    let mut file = elf(alloc, &vec![in alloc; good; 65_535]?, b"")?;
    assert_eq!(rt; read(alloc, &file, RAM)?.pieces.items().len(), 65_535);
    assert_eq!(rt;
        fault(alloc, &file, 15),
        Some(ElfFault::Segment { index: 0 })
    );
    let last = 64 + 56 * 65_534;
    assert!(rt; last + 56 == file.len());
    file[last..].copy_from_slice(&program_header(bad));
    assert_eq!(rt;
        fault(alloc, &file, RAM),
        Some(ElfFault::Segment { index: 65_534 })
    );
    Ok(())
}

#[test]
fn later_segments_lie_over_earlier_ones(rt: HostRuntime) -> Result<(), Fail> {
    let alloc = rt.alloc();
    // three headers end at 232
    let segment = |offset, address, file_size, memory_size| Segment {
        kind: 1,
        offset,
        address,
        file_size,
        memory_size,
    };
    let file = elf(
        alloc,
        &[
            segment(232, BASE, 8, 8),
            segment(240, BASE + 2, 2, 4),
            segment(242, BASE + 5, 1, 1),
        ],
        b"abcdefghABx",
    )?;
    let image = read(alloc, &file, LARGEST_RAM)?;
    expect_pieces(
        &rt,
        &image,
        &[
            (BASE, b"abcdefgh", 0),
            (BASE + 2, b"AB", 2),
            (BASE + 5, b"x", 0),
        ],
    );
    // the second segment's zeros clear two bytes of the first, one of which the third then writes
    expect_blocks(
        &rt,
        &image,
        &[
            (BASE, b"abcdefgh"),
            (BASE + 2, b"AB"),
            (BASE + 4, b"\0\0"),
            (BASE + 5, b"x"),
        ],
    );
    Ok(())
}

#[test]
fn blocks_end_with_their_page(rt: HostRuntime) -> Result<(), Fail> {
    let alloc = rt.alloc();
    let image = read(alloc, &[1; 8192], LARGEST_RAM)?;
    expect_blocks(
        &rt,
        &image,
        &[(BASE, &[1; 4096]), (BASE + 4096, &[1; 4096])],
    );

    // one header ends at 120
    let segment = Segment {
        kind: 1,
        offset: 120,
        address: BASE + 4090,
        file_size: 8,
        memory_size: 5_000,
    };
    let file = elf(alloc, &[segment], b"abcdefgh")?;
    let image = read(alloc, &file, LARGEST_RAM)?;
    expect_blocks(
        &rt,
        &image,
        &[
            (BASE + 4090, b"abcdef"),
            (BASE + 4096, b"gh"),
            (BASE + 4098, &[0; 4094]),
        ],
    );
    Ok(())
}

#[test]
fn zeros_are_put_only_in_written_pages(rt: HostRuntime) -> Result<(), Fail> {
    let alloc = rt.alloc();
    // as many segments as there can be, each of zeros alone
    let file = elf(alloc, &vec![in alloc; zeros(BASE, 65_536); 65_535]?, b"")?;
    let image = read(alloc, &file, LARGEST_RAM)?;
    expect_blocks(&rt, &image, &[]);

    // six headers end at 400
    let byte = |offset, address| Segment {
        kind: 1,
        offset,
        address,
        file_size: 1,
        memory_size: 1,
    };
    let file = elf(
        alloc,
        &[
            byte(400, BASE + 4096),
            byte(401, BASE + 16_777_215),
            // what stands behind the first byte in its page, and the second byte's whole page, which isn't cleared again
            zeros(BASE + 4097, 16_773_119),
            zeros(BASE + 8192, 16_769_024),
            // the first byte's whole page, and then nothing more
            zeros(BASE, 16_777_216),
            zeros(BASE, 16_777_216),
        ],
        b"ab",
    )?;
    let image = read(alloc, &file, LARGEST_RAM)?;
    expect_blocks(
        &rt,
        &image,
        &[
            (BASE + 4096, b"a"),
            (BASE + 16_777_215, b"b"),
            (BASE + 4097, &[0; 4095]),
            (BASE + 16_773_120, &[0; 4096]),
            (BASE + 4096, &[0; 4096]),
        ],
    );
    Ok(())
}

#[test]
fn headers_of_a_compiler_are_accepted(rt: HostRuntime) -> Result<(), Fail> {
    let alloc = rt.alloc();
    // three headers end at 232, and the code stands at 256
    let mut bytes = [0; 44];
    bytes[24..].copy_from_slice(&FILE[120..]);
    let code = Segment {
        kind: 1,
        offset: 256,
        address: BASE,
        file_size: 20,
        memory_size: 64,
    };
    // a note, and the stack's rights
    let note = Segment {
        kind: 4,
        ..zeros(0x1_0000, 36)
    };
    let stack = Segment {
        kind: 0x6474_e551,
        ..zeros(0, 0)
    };
    let mut file = elf(alloc, &[note, code, stack], &bytes)?;
    // place of the section headers, flags, size, count and names of section headers
    assert!(rt; file.len() == 276);
    LittleEndian::write_u64(&mut file[40..], 4096);
    LittleEndian::write_u32(&mut file[48..], 1);
    LittleEndian::write_u16(&mut file[58..], 64);
    LittleEndian::write_u16(&mut file[60..], 12);
    LittleEndian::write_u16(&mut file[62..], 11);
    let image = read(alloc, &file, RAM)?;
    assert_eq!(rt; image.entry, BASE);
    expect_pieces(&rt, &image, &[(BASE, &FILE[120..], 44)]);
    Ok(())
}
