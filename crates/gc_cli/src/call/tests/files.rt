// ELF files of small programs, with a comment for each field.

/// The ELF file of a program of less than 256 bytes, as the assembler writes it.
macro_rules! program_file {
    (size $size:literal, bytes $($byte:literal),+ $(,)?) => {
        [
            0x7f, 0x45, 0x4c, 0x46, // 0 the bytes of ELF
            2, 1, 1, 0, // 4 class, order, version, system
            0, 0, 0, 0, 0, 0, 0, 0, // 8 nothing
            2, 0, 243, 0, // 16 kind, machine
            1, 0, 0, 0, // 20 version
            0, 0, 0, 0x80, 0, 0, 0, 0, // 24 entry
            64, 0, 0, 0, 0, 0, 0, 0, // 32 place of the program headers
            0, 0, 0, 0, 0, 0, 0, 0, // 40 place of the section headers
            0, 0, 0, 0, // 48 flags
            64, 0, // 52 size of this header
            56, 0, 1, 0, // 54 size and count of program headers
            0, 0, 0, 0, 0, 0, // 58 size, count and names of section headers
            1, 0, 0, 0, // 64 type
            7, 0, 0, 0, // 68 flags
            120, 0, 0, 0, 0, 0, 0, 0, // 72 place in the file
            0, 0, 0, 0x80, 0, 0, 0, 0, // 80 virtual address
            0, 0, 0, 0x80, 0, 0, 0, 0, // 88 physical address
            $size, 0, 0, 0, 0, 0, 0, 0, // 96 size in the file
            $size, 0, 0, 0, 0, 0, 0, 0, // 104 size in memory
            8, 0, 0, 0, 0, 0, 0, 0, // 112 alignment
            $($byte),+ // 120 the words
        ]
    };
}

/// The file of the program that stores and exits.
pub(crate) const PROGRAM_FILE: [u8; 140] = program_file!(
    size 20, bytes
    0x37, 0x05, 0x00, 0x10, // lui x10, 0x10000
    0x93, 0x02, 0x10, 0x00, // addi x5, x0, 1
    0x23, 0x00, 0x55, 0x00, // sb x5, 0(x10)
    0xb7, 0x05, 0x10, 0x00, // lui x11, 0x100
    0x23, 0xa0, 0x05, 0x00, // sw x0, 0(x11)
);

/// The file of a jump to itself.
pub(crate) const LOOP_FILE: [u8; 124] = program_file!(size 4, bytes 0x6f, 0x00, 0x00, 0x00);

/// The program as a compiler for a bare board puts it into a file.
pub(crate) const COMPILED_FILE: [u8; 488] = [
    0x7f, 0x45, 0x4c, 0x46, // 0 the bytes of ELF
    2, 1, 1, 0, // 4 class, order, version, system
    0, 0, 0, 0, 0, 0, 0, 0, // 8 nothing
    2, 0, 243, 0, // 16 kind, machine
    1, 0, 0, 0, // 20 version
    0, 0, 0, 0x80, 0, 0, 0, 0, // 24 entry
    64, 0, 0, 0, 0, 0, 0, 0, // 32 place of the program headers
    40, 1, 0, 0, 0, 0, 0, 0, // 40 place of the section headers
    1, 0, 0, 0, // 48 flags: there may be compressed instructions
    64, 0, // 52 size of this header
    56, 0, 3, 0, // 54 size and count of program headers
    64, 0, 3, 0, 2, 0, // 58 size, count and names of section headers
    1, 0, 0, 0, // 64 type: to be loaded
    5, 0, 0, 0, // 68 flags
    232, 0, 0, 0, 0, 0, 0, 0, // 72 place in the file
    0, 0, 0, 0x80, 0, 0, 0, 0, // 80 virtual address
    0, 0, 0, 0x80, 0, 0, 0, 0, // 88 physical address
    20, 0, 0, 0, 0, 0, 0, 0, // 96 size in the file
    20, 0, 0, 0, 0, 0, 0, 0, // 104 size in memory
    4, 0, 0, 0, 0, 0, 0, 0, // 112 alignment
    4, 0, 0, 0, // 120 type: a note, which has no place in RAM
    4, 0, 0, 0, // 124 flags
    252, 0, 0, 0, 0, 0, 0, 0, // 128 place in the file
    0, 0, 1, 0, 0, 0, 0, 0, // 136 virtual address
    0, 0, 1, 0, 0, 0, 0, 0, // 144 physical address
    20, 0, 0, 0, 0, 0, 0, 0, // 152 size in the file
    20, 0, 0, 0, 0, 0, 0, 0, // 160 size in memory
    4, 0, 0, 0, 0, 0, 0, 0, // 168 alignment
    0x51, 0xe5, 0x74, 0x64, // 176 type: the rights of the stack
    6, 0, 0, 0, // 180 flags
    0, 0, 0, 0, 0, 0, 0, 0, // 184 place in the file
    0, 0, 0, 0, 0, 0, 0, 0, // 192 virtual address
    0, 0, 0, 0, 0, 0, 0, 0, // 200 physical address
    0, 0, 0, 0, 0, 0, 0, 0, // 208 size in the file
    0, 0, 0, 0, 0, 0, 0, 0, // 216 size in memory
    16, 0, 0, 0, 0, 0, 0, 0, // 224 alignment
    0x37, 0x05, 0x00, 0x10, // 232 lui x10, 0x10000
    0x93, 0x02, 0x10, 0x00, // 236 addi x5, x0, 1
    0x23, 0x00, 0x55, 0x00, // 240 sb x5, 0(x10)
    0xb7, 0x05, 0x10, 0x00, // 244 lui x11, 0x100
    0x23, 0xa0, 0x05, 0x00, // 248 sw x0, 0(x11)
    4, 0, 0, 0, // 252 size of the note's name
    4, 0, 0, 0, // 256 size of its content
    3, 0, 0, 0, // 260 its type
    0x47, 0x4e, 0x55, 0, // 264 its name: GNU
    0x78, 0x56, 0x34, 0x12, // 268 its content
    0, // 272 names of the sections: none
    0x2e, 0x74, 0x65, 0x78, 0x74, 0, // 273 .text
    0x2e, 0x73, 0x68, 0x73, 0x74, 0x72, 0x74, 0x61, 0x62, 0, // 279 .shstrtab
    0, 0, 0, 0, 0, 0, 0, // 289 nothing
    0, 0, 0, 0, // 296 name of a section: none
    0, 0, 0, 0, // 300 type
    0, 0, 0, 0, 0, 0, 0, 0, // 304 flags
    0, 0, 0, 0, 0, 0, 0, 0, // 312 address
    0, 0, 0, 0, 0, 0, 0, 0, // 320 place in the file
    0, 0, 0, 0, 0, 0, 0, 0, // 328 size
    0, 0, 0, 0, 0, 0, 0, 0, // 336 link and more
    0, 0, 0, 0, 0, 0, 0, 0, // 344 alignment
    0, 0, 0, 0, 0, 0, 0, 0, // 352 size of an entry
    1, 0, 0, 0, // 360 name of a section: .text
    1, 0, 0, 0, // 364 type
    6, 0, 0, 0, 0, 0, 0, 0, // 368 flags
    0, 0, 0, 0x80, 0, 0, 0, 0, // 376 address
    232, 0, 0, 0, 0, 0, 0, 0, // 384 place in the file
    20, 0, 0, 0, 0, 0, 0, 0, // 392 size
    0, 0, 0, 0, 0, 0, 0, 0, // 400 link and more
    4, 0, 0, 0, 0, 0, 0, 0, // 408 alignment
    0, 0, 0, 0, 0, 0, 0, 0, // 416 size of an entry
    7, 0, 0, 0, // 424 name of a section: .shstrtab
    3, 0, 0, 0, // 428 type
    0, 0, 0, 0, 0, 0, 0, 0, // 432 flags
    0, 0, 0, 0, 0, 0, 0, 0, // 440 address
    16, 1, 0, 0, 0, 0, 0, 0, // 448 place in the file
    17, 0, 0, 0, 0, 0, 0, 0, // 456 size
    0, 0, 0, 0, 0, 0, 0, 0, // 464 link and more
    1, 0, 0, 0, 0, 0, 0, 0, // 472 alignment
    0, 0, 0, 0, 0, 0, 0, 0, // 480 size of an entry
];
