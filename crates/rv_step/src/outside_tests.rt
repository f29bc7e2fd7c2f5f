//! Each row of the instruction table at the edges of its operands. The tables are worked out by qemu-riscv64, over words of GNU as,
//! and from the manuals where a user program may not run a row: scripts/step_vectors.py makes them anew. A line of a table is some
//! numbers in hexadecimal and the text of the word, which is the first number. All else of the state is as at a reset.

use super::*;
use crate::alu::low;
use std::process::Abort;

/// A word, x1, x2, and x3 after it.
static VALUES: &str = "
2081b3 0 0 0 add x3, x1, x2
2081b3 1 ffffffffffffffff 0 add x3, x1, x2
2081b3 ffffffffffffffff 1 0 add x3, x1, x2
2081b3 ffffffffffffffff ffffffffffffffff fffffffffffffffe add x3, x1, x2
2081b3 8000000000000000 1 8000000000000001 add x3, x1, x2
2081b3 8000000000000000 ffffffffffffffff 7fffffffffffffff add x3, x1, x2
2081b3 7fffffffffffffff 1 8000000000000000 add x3, x1, x2
2081b3 7fffffffffffffff 7fffffffffffffff fffffffffffffffe add x3, x1, x2
2081b3 7 fffffffffffffffe 5 add x3, x1, x2
402081b3 0 0 0 sub x3, x1, x2
402081b3 1 ffffffffffffffff 2 sub x3, x1, x2
402081b3 ffffffffffffffff 1 fffffffffffffffe sub x3, x1, x2
402081b3 ffffffffffffffff ffffffffffffffff 0 sub x3, x1, x2
402081b3 8000000000000000 1 7fffffffffffffff sub x3, x1, x2
402081b3 8000000000000000 ffffffffffffffff 8000000000000001 sub x3, x1, x2
402081b3 7fffffffffffffff 1 7ffffffffffffffe sub x3, x1, x2
402081b3 7fffffffffffffff 7fffffffffffffff 0 sub x3, x1, x2
402081b3 7 fffffffffffffffe 9 sub x3, x1, x2
20a1b3 0 0 0 slt x3, x1, x2
20a1b3 1 ffffffffffffffff 0 slt x3, x1, x2
20a1b3 ffffffffffffffff 1 1 slt x3, x1, x2
20a1b3 ffffffffffffffff ffffffffffffffff 0 slt x3, x1, x2
20a1b3 8000000000000000 1 1 slt x3, x1, x2
20a1b3 8000000000000000 ffffffffffffffff 1 slt x3, x1, x2
20a1b3 7fffffffffffffff 1 0 slt x3, x1, x2
20a1b3 7fffffffffffffff 7fffffffffffffff 0 slt x3, x1, x2
20a1b3 7 fffffffffffffffe 0 slt x3, x1, x2
20b1b3 0 0 0 sltu x3, x1, x2
20b1b3 1 ffffffffffffffff 1 sltu x3, x1, x2
20b1b3 ffffffffffffffff 1 0 sltu x3, x1, x2
20b1b3 ffffffffffffffff ffffffffffffffff 0 sltu x3, x1, x2
20b1b3 8000000000000000 1 0 sltu x3, x1, x2
20b1b3 8000000000000000 ffffffffffffffff 1 sltu x3, x1, x2
20b1b3 7fffffffffffffff 1 0 sltu x3, x1, x2
20b1b3 7fffffffffffffff 7fffffffffffffff 0 sltu x3, x1, x2
20b1b3 7 fffffffffffffffe 1 sltu x3, x1, x2
20c1b3 0 0 0 xor x3, x1, x2
20c1b3 1 ffffffffffffffff fffffffffffffffe xor x3, x1, x2
20c1b3 ffffffffffffffff 1 fffffffffffffffe xor x3, x1, x2
20c1b3 ffffffffffffffff ffffffffffffffff 0 xor x3, x1, x2
20c1b3 8000000000000000 1 8000000000000001 xor x3, x1, x2
20c1b3 8000000000000000 ffffffffffffffff 7fffffffffffffff xor x3, x1, x2
20c1b3 7fffffffffffffff 1 7ffffffffffffffe xor x3, x1, x2
20c1b3 7fffffffffffffff 7fffffffffffffff 0 xor x3, x1, x2
20c1b3 7 fffffffffffffffe fffffffffffffff9 xor x3, x1, x2
20e1b3 0 0 0 or x3, x1, x2
20e1b3 1 ffffffffffffffff ffffffffffffffff or x3, x1, x2
20e1b3 ffffffffffffffff 1 ffffffffffffffff or x3, x1, x2
20e1b3 ffffffffffffffff ffffffffffffffff ffffffffffffffff or x3, x1, x2
20e1b3 8000000000000000 1 8000000000000001 or x3, x1, x2
20e1b3 8000000000000000 ffffffffffffffff ffffffffffffffff or x3, x1, x2
20e1b3 7fffffffffffffff 1 7fffffffffffffff or x3, x1, x2
20e1b3 7fffffffffffffff 7fffffffffffffff 7fffffffffffffff or x3, x1, x2
20e1b3 7 fffffffffffffffe ffffffffffffffff or x3, x1, x2
20f1b3 0 0 0 and x3, x1, x2
20f1b3 1 ffffffffffffffff 1 and x3, x1, x2
20f1b3 ffffffffffffffff 1 1 and x3, x1, x2
20f1b3 ffffffffffffffff ffffffffffffffff ffffffffffffffff and x3, x1, x2
20f1b3 8000000000000000 1 0 and x3, x1, x2
20f1b3 8000000000000000 ffffffffffffffff 8000000000000000 and x3, x1, x2
20f1b3 7fffffffffffffff 1 1 and x3, x1, x2
20f1b3 7fffffffffffffff 7fffffffffffffff 7fffffffffffffff and x3, x1, x2
20f1b3 7 fffffffffffffffe 6 and x3, x1, x2
22081b3 0 0 0 mul x3, x1, x2
22081b3 1 ffffffffffffffff ffffffffffffffff mul x3, x1, x2
22081b3 ffffffffffffffff 1 ffffffffffffffff mul x3, x1, x2
22081b3 ffffffffffffffff ffffffffffffffff 1 mul x3, x1, x2
22081b3 8000000000000000 1 8000000000000000 mul x3, x1, x2
22081b3 8000000000000000 ffffffffffffffff 8000000000000000 mul x3, x1, x2
22081b3 7fffffffffffffff 1 7fffffffffffffff mul x3, x1, x2
22081b3 7fffffffffffffff 7fffffffffffffff 1 mul x3, x1, x2
22081b3 7 fffffffffffffffe fffffffffffffff2 mul x3, x1, x2
22091b3 0 0 0 mulh x3, x1, x2
22091b3 1 ffffffffffffffff ffffffffffffffff mulh x3, x1, x2
22091b3 ffffffffffffffff 1 ffffffffffffffff mulh x3, x1, x2
22091b3 ffffffffffffffff ffffffffffffffff 0 mulh x3, x1, x2
22091b3 8000000000000000 1 ffffffffffffffff mulh x3, x1, x2
22091b3 8000000000000000 ffffffffffffffff 0 mulh x3, x1, x2
22091b3 7fffffffffffffff 1 0 mulh x3, x1, x2
22091b3 7fffffffffffffff 7fffffffffffffff 3fffffffffffffff mulh x3, x1, x2
22091b3 7 fffffffffffffffe ffffffffffffffff mulh x3, x1, x2
220a1b3 0 0 0 mulhsu x3, x1, x2
220a1b3 1 ffffffffffffffff 0 mulhsu x3, x1, x2
220a1b3 ffffffffffffffff 1 ffffffffffffffff mulhsu x3, x1, x2
220a1b3 ffffffffffffffff ffffffffffffffff ffffffffffffffff mulhsu x3, x1, x2
220a1b3 8000000000000000 1 ffffffffffffffff mulhsu x3, x1, x2
220a1b3 8000000000000000 ffffffffffffffff 8000000000000000 mulhsu x3, x1, x2
220a1b3 7fffffffffffffff 1 0 mulhsu x3, x1, x2
220a1b3 7fffffffffffffff 7fffffffffffffff 3fffffffffffffff mulhsu x3, x1, x2
220a1b3 7 fffffffffffffffe 6 mulhsu x3, x1, x2
220b1b3 0 0 0 mulhu x3, x1, x2
220b1b3 1 ffffffffffffffff 0 mulhu x3, x1, x2
220b1b3 ffffffffffffffff 1 0 mulhu x3, x1, x2
220b1b3 ffffffffffffffff ffffffffffffffff fffffffffffffffe mulhu x3, x1, x2
220b1b3 8000000000000000 1 0 mulhu x3, x1, x2
220b1b3 8000000000000000 ffffffffffffffff 7fffffffffffffff mulhu x3, x1, x2
220b1b3 7fffffffffffffff 1 0 mulhu x3, x1, x2
220b1b3 7fffffffffffffff 7fffffffffffffff 3fffffffffffffff mulhu x3, x1, x2
220b1b3 7 fffffffffffffffe 6 mulhu x3, x1, x2
2081bb 1 ffffffffffffffff 0 addw x3, x1, x2
2081bb ffffffffffffffff 1 0 addw x3, x1, x2
2081bb ffffffffffffffff ffffffffffffffff fffffffffffffffe addw x3, x1, x2
2081bb 7fffffff 1 ffffffff80000000 addw x3, x1, x2
2081bb ffffffff80000000 ffffffffffffffff 7fffffff addw x3, x1, x2
2081bb 80000000 80000000 0 addw x3, x1, x2
2081bb 100000007 ffffffff00000002 9 addw x3, x1, x2
402081bb 1 ffffffffffffffff 2 subw x3, x1, x2
402081bb ffffffffffffffff 1 fffffffffffffffe subw x3, x1, x2
402081bb ffffffffffffffff ffffffffffffffff 0 subw x3, x1, x2
402081bb 7fffffff 1 7ffffffe subw x3, x1, x2
402081bb ffffffff80000000 ffffffffffffffff ffffffff80000001 subw x3, x1, x2
402081bb 80000000 80000000 0 subw x3, x1, x2
402081bb 100000007 ffffffff00000002 5 subw x3, x1, x2
22081bb 1 ffffffffffffffff ffffffffffffffff mulw x3, x1, x2
22081bb ffffffffffffffff 1 ffffffffffffffff mulw x3, x1, x2
22081bb ffffffffffffffff ffffffffffffffff 1 mulw x3, x1, x2
22081bb 7fffffff 1 7fffffff mulw x3, x1, x2
22081bb ffffffff80000000 ffffffffffffffff ffffffff80000000 mulw x3, x1, x2
22081bb 80000000 80000000 0 mulw x3, x1, x2
22081bb 100000007 ffffffff00000002 e mulw x3, x1, x2
2091b3 ffffffffffffffff 0 ffffffffffffffff sll x3, x1, x2
2091b3 8000000000000000 1f 0 sll x3, x1, x2
2091b3 80000001 1f 4000000080000000 sll x3, x1, x2
2091b3 8182838485868788 20 8586878800000000 sll x3, x1, x2
2091b3 1 3f 8000000000000000 sll x3, x1, x2
2091b3 8000000000000000 3f 0 sll x3, x1, x2
2091b3 8182838485868788 41 30507090b0d0f10 sll x3, x1, x2
20d1b3 ffffffffffffffff 0 ffffffffffffffff srl x3, x1, x2
20d1b3 8000000000000000 1f 100000000 srl x3, x1, x2
20d1b3 80000001 1f 1 srl x3, x1, x2
20d1b3 8182838485868788 20 81828384 srl x3, x1, x2
20d1b3 1 3f 0 srl x3, x1, x2
20d1b3 8000000000000000 3f 1 srl x3, x1, x2
20d1b3 8182838485868788 41 40c141c242c343c4 srl x3, x1, x2
4020d1b3 ffffffffffffffff 0 ffffffffffffffff sra x3, x1, x2
4020d1b3 8000000000000000 1f ffffffff00000000 sra x3, x1, x2
4020d1b3 80000001 1f 1 sra x3, x1, x2
4020d1b3 8182838485868788 20 ffffffff81828384 sra x3, x1, x2
4020d1b3 1 3f 0 sra x3, x1, x2
4020d1b3 8000000000000000 3f ffffffffffffffff sra x3, x1, x2
4020d1b3 8182838485868788 41 c0c141c242c343c4 sra x3, x1, x2
2091bb ffffffffffffffff 0 ffffffffffffffff sllw x3, x1, x2
2091bb 8000000000000000 1f 0 sllw x3, x1, x2
2091bb 80000001 1f ffffffff80000000 sllw x3, x1, x2
2091bb 8182838485868788 20 ffffffff85868788 sllw x3, x1, x2
2091bb 1 3f ffffffff80000000 sllw x3, x1, x2
2091bb 8000000000000000 3f 0 sllw x3, x1, x2
2091bb 8182838485868788 41 b0d0f10 sllw x3, x1, x2
20d1bb ffffffffffffffff 0 ffffffffffffffff srlw x3, x1, x2
20d1bb 8000000000000000 1f 0 srlw x3, x1, x2
20d1bb 80000001 1f 1 srlw x3, x1, x2
20d1bb 8182838485868788 20 ffffffff85868788 srlw x3, x1, x2
20d1bb 1 3f 0 srlw x3, x1, x2
20d1bb 8000000000000000 3f 0 srlw x3, x1, x2
20d1bb 8182838485868788 41 42c343c4 srlw x3, x1, x2
4020d1bb ffffffffffffffff 0 ffffffffffffffff sraw x3, x1, x2
4020d1bb 8000000000000000 1f 0 sraw x3, x1, x2
4020d1bb 80000001 1f ffffffffffffffff sraw x3, x1, x2
4020d1bb 8182838485868788 20 ffffffff85868788 sraw x3, x1, x2
4020d1bb 1 3f 0 sraw x3, x1, x2
4020d1bb 8000000000000000 3f 0 sraw x3, x1, x2
4020d1bb 8182838485868788 41 ffffffffc2c343c4 sraw x3, x1, x2
220c1b3 7 0 ffffffffffffffff div x3, x1, x2
220c1b3 8000000000000000 0 ffffffffffffffff div x3, x1, x2
220c1b3 8000000000000000 ffffffffffffffff 8000000000000000 div x3, x1, x2
220c1b3 ffffffff80000000 ffffffffffffffff 80000000 div x3, x1, x2
220c1b3 fffffffffffffff9 2 fffffffffffffffd div x3, x1, x2
220c1b3 7 fffffffffffffffe fffffffffffffffd div x3, x1, x2
220c1b3 7fffffffffffffff 3 2aaaaaaaaaaaaaaa div x3, x1, x2
220c1b3 180000001 100000000 1 div x3, x1, x2
220c1b3 ffffffffffffffff 1ffffffff 0 div x3, x1, x2
220d1b3 7 0 ffffffffffffffff divu x3, x1, x2
220d1b3 8000000000000000 0 ffffffffffffffff divu x3, x1, x2
220d1b3 8000000000000000 ffffffffffffffff 0 divu x3, x1, x2
220d1b3 ffffffff80000000 ffffffffffffffff 0 divu x3, x1, x2
220d1b3 fffffffffffffff9 2 7ffffffffffffffc divu x3, x1, x2
220d1b3 7 fffffffffffffffe 0 divu x3, x1, x2
220d1b3 7fffffffffffffff 3 2aaaaaaaaaaaaaaa divu x3, x1, x2
220d1b3 180000001 100000000 1 divu x3, x1, x2
220d1b3 ffffffffffffffff 1ffffffff 80000000 divu x3, x1, x2
220e1b3 7 0 7 rem x3, x1, x2
220e1b3 8000000000000000 0 8000000000000000 rem x3, x1, x2
220e1b3 8000000000000000 ffffffffffffffff 0 rem x3, x1, x2
220e1b3 ffffffff80000000 ffffffffffffffff 0 rem x3, x1, x2
220e1b3 fffffffffffffff9 2 ffffffffffffffff rem x3, x1, x2
220e1b3 7 fffffffffffffffe 1 rem x3, x1, x2
220e1b3 7fffffffffffffff 3 1 rem x3, x1, x2
220e1b3 180000001 100000000 80000001 rem x3, x1, x2
220e1b3 ffffffffffffffff 1ffffffff ffffffffffffffff rem x3, x1, x2
220f1b3 7 0 7 remu x3, x1, x2
220f1b3 8000000000000000 0 8000000000000000 remu x3, x1, x2
220f1b3 8000000000000000 ffffffffffffffff 8000000000000000 remu x3, x1, x2
220f1b3 ffffffff80000000 ffffffffffffffff ffffffff80000000 remu x3, x1, x2
220f1b3 fffffffffffffff9 2 1 remu x3, x1, x2
220f1b3 7 fffffffffffffffe 7 remu x3, x1, x2
220f1b3 7fffffffffffffff 3 1 remu x3, x1, x2
220f1b3 180000001 100000000 80000001 remu x3, x1, x2
220f1b3 ffffffffffffffff 1ffffffff 7fffffff remu x3, x1, x2
220c1bb 7 0 ffffffffffffffff divw x3, x1, x2
220c1bb 8000000000000000 0 ffffffffffffffff divw x3, x1, x2
220c1bb 8000000000000000 ffffffffffffffff 0 divw x3, x1, x2
220c1bb ffffffff80000000 ffffffffffffffff ffffffff80000000 divw x3, x1, x2
220c1bb fffffffffffffff9 2 fffffffffffffffd divw x3, x1, x2
220c1bb 7 fffffffffffffffe fffffffffffffffd divw x3, x1, x2
220c1bb 7fffffffffffffff 3 0 divw x3, x1, x2
220c1bb 180000001 100000000 ffffffffffffffff divw x3, x1, x2
220c1bb ffffffffffffffff 1ffffffff 1 divw x3, x1, x2
220d1bb 7 0 ffffffffffffffff divuw x3, x1, x2
220d1bb 8000000000000000 0 ffffffffffffffff divuw x3, x1, x2
220d1bb 8000000000000000 ffffffffffffffff 0 divuw x3, x1, x2
220d1bb ffffffff80000000 ffffffffffffffff 0 divuw x3, x1, x2
220d1bb fffffffffffffff9 2 7ffffffc divuw x3, x1, x2
220d1bb 7 fffffffffffffffe 0 divuw x3, x1, x2
220d1bb 7fffffffffffffff 3 55555555 divuw x3, x1, x2
220d1bb 180000001 100000000 ffffffffffffffff divuw x3, x1, x2
220d1bb ffffffffffffffff 1ffffffff 1 divuw x3, x1, x2
220e1bb 7 0 7 remw x3, x1, x2
220e1bb 8000000000000000 0 0 remw x3, x1, x2
220e1bb 8000000000000000 ffffffffffffffff 0 remw x3, x1, x2
220e1bb ffffffff80000000 ffffffffffffffff 0 remw x3, x1, x2
220e1bb fffffffffffffff9 2 ffffffffffffffff remw x3, x1, x2
220e1bb 7 fffffffffffffffe 1 remw x3, x1, x2
220e1bb 7fffffffffffffff 3 ffffffffffffffff remw x3, x1, x2
220e1bb 180000001 100000000 ffffffff80000001 remw x3, x1, x2
220e1bb ffffffffffffffff 1ffffffff 0 remw x3, x1, x2
220f1bb 7 0 7 remuw x3, x1, x2
220f1bb 8000000000000000 0 0 remuw x3, x1, x2
220f1bb 8000000000000000 ffffffffffffffff 0 remuw x3, x1, x2
220f1bb ffffffff80000000 ffffffffffffffff ffffffff80000000 remuw x3, x1, x2
220f1bb fffffffffffffff9 2 1 remuw x3, x1, x2
220f1bb 7 fffffffffffffffe 7 remuw x3, x1, x2
220f1bb 7fffffffffffffff 3 0 remuw x3, x1, x2
220f1bb 180000001 100000000 ffffffff80000001 remuw x3, x1, x2
220f1bb ffffffffffffffff 1ffffffff 0 remuw x3, x1, x2
8193 0 0 0 addi x3, x1, 0
108193 ffffffffffffffff 0 0 addi x3, x1, 1
fff08193 0 0 ffffffffffffffff addi x3, x1, -1
fff08193 ffffffffffffffff 0 fffffffffffffffe addi x3, x1, -1
80008193 8000000000000000 0 7ffffffffffff800 addi x3, x1, -2048
7ff08193 7fffffffffffffff 0 80000000000007fe addi x3, x1, 2047
108193 7fffffff 0 80000000 addi x3, x1, 1
fff08193 80000000 0 7fffffff addi x3, x1, -1
a193 0 0 0 slti x3, x1, 0
10a193 ffffffffffffffff 0 1 slti x3, x1, 1
fff0a193 0 0 0 slti x3, x1, -1
fff0a193 ffffffffffffffff 0 0 slti x3, x1, -1
8000a193 8000000000000000 0 1 slti x3, x1, -2048
7ff0a193 7fffffffffffffff 0 0 slti x3, x1, 2047
10a193 7fffffff 0 0 slti x3, x1, 1
fff0a193 80000000 0 0 slti x3, x1, -1
b193 0 0 0 sltiu x3, x1, 0
10b193 ffffffffffffffff 0 0 sltiu x3, x1, 1
fff0b193 0 0 1 sltiu x3, x1, -1
fff0b193 ffffffffffffffff 0 0 sltiu x3, x1, -1
8000b193 8000000000000000 0 1 sltiu x3, x1, -2048
7ff0b193 7fffffffffffffff 0 0 sltiu x3, x1, 2047
10b193 7fffffff 0 0 sltiu x3, x1, 1
fff0b193 80000000 0 1 sltiu x3, x1, -1
c193 0 0 0 xori x3, x1, 0
10c193 ffffffffffffffff 0 fffffffffffffffe xori x3, x1, 1
fff0c193 0 0 ffffffffffffffff xori x3, x1, -1
fff0c193 ffffffffffffffff 0 0 xori x3, x1, -1
8000c193 8000000000000000 0 7ffffffffffff800 xori x3, x1, -2048
7ff0c193 7fffffffffffffff 0 7ffffffffffff800 xori x3, x1, 2047
10c193 7fffffff 0 7ffffffe xori x3, x1, 1
fff0c193 80000000 0 ffffffff7fffffff xori x3, x1, -1
e193 0 0 0 ori x3, x1, 0
10e193 ffffffffffffffff 0 ffffffffffffffff ori x3, x1, 1
fff0e193 0 0 ffffffffffffffff ori x3, x1, -1
fff0e193 ffffffffffffffff 0 ffffffffffffffff ori x3, x1, -1
8000e193 8000000000000000 0 fffffffffffff800 ori x3, x1, -2048
7ff0e193 7fffffffffffffff 0 7fffffffffffffff ori x3, x1, 2047
10e193 7fffffff 0 7fffffff ori x3, x1, 1
fff0e193 80000000 0 ffffffffffffffff ori x3, x1, -1
f193 0 0 0 andi x3, x1, 0
10f193 ffffffffffffffff 0 1 andi x3, x1, 1
fff0f193 0 0 0 andi x3, x1, -1
fff0f193 ffffffffffffffff 0 ffffffffffffffff andi x3, x1, -1
8000f193 8000000000000000 0 8000000000000000 andi x3, x1, -2048
7ff0f193 7fffffffffffffff 0 7ff andi x3, x1, 2047
10f193 7fffffff 0 1 andi x3, x1, 1
fff0f193 80000000 0 80000000 andi x3, x1, -1
819b 0 0 0 addiw x3, x1, 0
10819b ffffffffffffffff 0 0 addiw x3, x1, 1
fff0819b 0 0 ffffffffffffffff addiw x3, x1, -1
fff0819b ffffffffffffffff 0 fffffffffffffffe addiw x3, x1, -1
8000819b 8000000000000000 0 fffffffffffff800 addiw x3, x1, -2048
7ff0819b 7fffffffffffffff 0 7fe addiw x3, x1, 2047
10819b 7fffffff 0 ffffffff80000000 addiw x3, x1, 1
fff0819b 80000000 0 7fffffff addiw x3, x1, -1
9193 ffffffffffffffff 0 ffffffffffffffff slli x3, x1, 0
1f09193 8182838485868788 0 42c343c400000000 slli x3, x1, 31
2009193 8182838485868788 0 8586878800000000 slli x3, x1, 32
3f09193 8000000000000000 0 0 slli x3, x1, 63
3f09193 ffffffffffffffff 0 8000000000000000 slli x3, x1, 63
d193 ffffffffffffffff 0 ffffffffffffffff srli x3, x1, 0
1f0d193 8182838485868788 0 103050709 srli x3, x1, 31
200d193 8182838485868788 0 81828384 srli x3, x1, 32
3f0d193 8000000000000000 0 1 srli x3, x1, 63
3f0d193 ffffffffffffffff 0 1 srli x3, x1, 63
4000d193 ffffffffffffffff 0 ffffffffffffffff srai x3, x1, 0
41f0d193 8182838485868788 0 ffffffff03050709 srai x3, x1, 31
4200d193 8182838485868788 0 ffffffff81828384 srai x3, x1, 32
43f0d193 8000000000000000 0 ffffffffffffffff srai x3, x1, 63
43f0d193 ffffffffffffffff 0 ffffffffffffffff srai x3, x1, 63
919b 80000001 0 ffffffff80000001 slliw x3, x1, 0
1f0919b 80000001 0 ffffffff80000000 slliw x3, x1, 31
10919b 17fffffff 0 fffffffffffffffe slliw x3, x1, 1
40919b 8182838485868788 0 58687880 slliw x3, x1, 4
d19b 80000001 0 ffffffff80000001 srliw x3, x1, 0
1f0d19b 80000001 0 1 srliw x3, x1, 31
10d19b 17fffffff 0 3fffffff srliw x3, x1, 1
40d19b 8182838485868788 0 8586878 srliw x3, x1, 4
4000d19b 80000001 0 ffffffff80000001 sraiw x3, x1, 0
41f0d19b 80000001 0 ffffffffffffffff sraiw x3, x1, 31
4010d19b 17fffffff 0 3fffffff sraiw x3, x1, 1
4040d19b 8182838485868788 0 fffffffff8586878 sraiw x3, x1, 4
1b7 0 0 0 lui x3, 0
11b7 0 0 1000 lui x3, 1
7ffff1b7 0 0 7ffff000 lui x3, 524287
800001b7 0 0 ffffffff80000000 lui x3, 524288
fffff1b7 0 0 fffffffffffff000 lui x3, 1048575
197 0 0 80000000 auipc x3, 0
1197 0 0 80001000 auipc x3, 1
7ffff197 0 0 fffff000 auipc x3, 524287
80000197 0 0 0 auipc x3, 524288
fffff197 0 0 7ffff000 auipc x3, 1048575
ff0000f 1 2 0 fence
100f 1 2 0 fence.i
";

/// A word at RAM's first byte, x1, x2, and x3 and pc after it.
static TARGETS: &str = "
208463 0 0 0 80000008 beq x1, x2, .+8
208463 1 ffffffffffffffff 0 80000004 beq x1, x2, .+8
208463 ffffffffffffffff 1 0 80000004 beq x1, x2, .+8
208463 8000000000000000 7fffffffffffffff 0 80000004 beq x1, x2, .+8
208463 7fffffffffffffff 8000000000000000 0 80000004 beq x1, x2, .+8
fe208ce3 0 0 0 7ffffff8 beq x1, x2, .-8
fe208ce3 1 ffffffffffffffff 0 80000004 beq x1, x2, .-8
fe208ce3 ffffffffffffffff 1 0 80000004 beq x1, x2, .-8
fe208ce3 8000000000000000 7fffffffffffffff 0 80000004 beq x1, x2, .-8
fe208ce3 7fffffffffffffff 8000000000000000 0 80000004 beq x1, x2, .-8
209463 0 0 0 80000004 bne x1, x2, .+8
209463 1 ffffffffffffffff 0 80000008 bne x1, x2, .+8
209463 ffffffffffffffff 1 0 80000008 bne x1, x2, .+8
209463 8000000000000000 7fffffffffffffff 0 80000008 bne x1, x2, .+8
209463 7fffffffffffffff 8000000000000000 0 80000008 bne x1, x2, .+8
fe209ce3 0 0 0 80000004 bne x1, x2, .-8
fe209ce3 1 ffffffffffffffff 0 7ffffff8 bne x1, x2, .-8
fe209ce3 ffffffffffffffff 1 0 7ffffff8 bne x1, x2, .-8
fe209ce3 8000000000000000 7fffffffffffffff 0 7ffffff8 bne x1, x2, .-8
fe209ce3 7fffffffffffffff 8000000000000000 0 7ffffff8 bne x1, x2, .-8
20c463 0 0 0 80000004 blt x1, x2, .+8
20c463 1 ffffffffffffffff 0 80000004 blt x1, x2, .+8
20c463 ffffffffffffffff 1 0 80000008 blt x1, x2, .+8
20c463 8000000000000000 7fffffffffffffff 0 80000008 blt x1, x2, .+8
20c463 7fffffffffffffff 8000000000000000 0 80000004 blt x1, x2, .+8
fe20cce3 0 0 0 80000004 blt x1, x2, .-8
fe20cce3 1 ffffffffffffffff 0 80000004 blt x1, x2, .-8
fe20cce3 ffffffffffffffff 1 0 7ffffff8 blt x1, x2, .-8
fe20cce3 8000000000000000 7fffffffffffffff 0 7ffffff8 blt x1, x2, .-8
fe20cce3 7fffffffffffffff 8000000000000000 0 80000004 blt x1, x2, .-8
20d463 0 0 0 80000008 bge x1, x2, .+8
20d463 1 ffffffffffffffff 0 80000008 bge x1, x2, .+8
20d463 ffffffffffffffff 1 0 80000004 bge x1, x2, .+8
20d463 8000000000000000 7fffffffffffffff 0 80000004 bge x1, x2, .+8
20d463 7fffffffffffffff 8000000000000000 0 80000008 bge x1, x2, .+8
fe20dce3 0 0 0 7ffffff8 bge x1, x2, .-8
fe20dce3 1 ffffffffffffffff 0 7ffffff8 bge x1, x2, .-8
fe20dce3 ffffffffffffffff 1 0 80000004 bge x1, x2, .-8
fe20dce3 8000000000000000 7fffffffffffffff 0 80000004 bge x1, x2, .-8
fe20dce3 7fffffffffffffff 8000000000000000 0 7ffffff8 bge x1, x2, .-8
20e463 0 0 0 80000004 bltu x1, x2, .+8
20e463 1 ffffffffffffffff 0 80000008 bltu x1, x2, .+8
20e463 ffffffffffffffff 1 0 80000004 bltu x1, x2, .+8
20e463 8000000000000000 7fffffffffffffff 0 80000004 bltu x1, x2, .+8
20e463 7fffffffffffffff 8000000000000000 0 80000008 bltu x1, x2, .+8
fe20ece3 0 0 0 80000004 bltu x1, x2, .-8
fe20ece3 1 ffffffffffffffff 0 7ffffff8 bltu x1, x2, .-8
fe20ece3 ffffffffffffffff 1 0 80000004 bltu x1, x2, .-8
fe20ece3 8000000000000000 7fffffffffffffff 0 80000004 bltu x1, x2, .-8
fe20ece3 7fffffffffffffff 8000000000000000 0 7ffffff8 bltu x1, x2, .-8
20f463 0 0 0 80000008 bgeu x1, x2, .+8
20f463 1 ffffffffffffffff 0 80000004 bgeu x1, x2, .+8
20f463 ffffffffffffffff 1 0 80000008 bgeu x1, x2, .+8
20f463 8000000000000000 7fffffffffffffff 0 80000008 bgeu x1, x2, .+8
20f463 7fffffffffffffff 8000000000000000 0 80000004 bgeu x1, x2, .+8
fe20fce3 0 0 0 7ffffff8 bgeu x1, x2, .-8
fe20fce3 1 ffffffffffffffff 0 80000004 bgeu x1, x2, .-8
fe20fce3 ffffffffffffffff 1 0 7ffffff8 bgeu x1, x2, .-8
fe20fce3 8000000000000000 7fffffffffffffff 0 7ffffff8 bgeu x1, x2, .-8
fe20fce3 7fffffffffffffff 8000000000000000 0 80000004 bgeu x1, x2, .-8
8001ef 0 0 80000004 80000008 jal x3, .+8
ff9ff1ef 0 0 80000004 7ffffff8 jal x3, .-8
81e7 80000008 0 80000004 80000008 jalr x3, 0(x1)
3081e7 80000005 0 80000004 80000008 jalr x3, 3(x1)
fff081e7 8000000a 0 80000004 80000008 jalr x3, -1(x1)
800081e7 80000808 0 80000004 80000008 jalr x3, -2048(x1)
7ff081e7 7ffff7f9 0 80000004 7ffffff8 jalr x3, 2047(x1)
1081e7 7ffffff8 0 80000004 7ffffff8 jalr x3, 1(x1)
";

/// A word, x1, x2, and x3 and memory after it: the 8 bytes at 0x80000100, which were x2's complement before.
static ACCESSES: &str = "
8183 80000100 8182838485868788 77 7e7d7c7b7a797877 lb x3, 0(x1)
80008183 80000900 7172737475767778 ffffffffffffff87 8e8d8c8b8a898887 lb x3, -2048(x1)
708183 80000100 8182838485868788 7e 7e7d7c7b7a797877 lb x3, 7(x1)
80708183 80000900 7172737475767778 ffffffffffffff8e 8e8d8c8b8a898887 lb x3, -2041(x1)
9183 80000100 8182838485868788 7877 7e7d7c7b7a797877 lh x3, 0(x1)
80009183 80000900 7172737475767778 ffffffffffff8887 8e8d8c8b8a898887 lh x3, -2048(x1)
609183 80000100 8182838485868788 7e7d 7e7d7c7b7a797877 lh x3, 6(x1)
80609183 80000900 7172737475767778 ffffffffffff8e8d 8e8d8c8b8a898887 lh x3, -2042(x1)
a183 80000100 8182838485868788 7a797877 7e7d7c7b7a797877 lw x3, 0(x1)
8000a183 80000900 7172737475767778 ffffffff8a898887 8e8d8c8b8a898887 lw x3, -2048(x1)
40a183 80000100 8182838485868788 7e7d7c7b 7e7d7c7b7a797877 lw x3, 4(x1)
8040a183 80000900 7172737475767778 ffffffff8e8d8c8b 8e8d8c8b8a898887 lw x3, -2044(x1)
b183 80000100 8182838485868788 7e7d7c7b7a797877 7e7d7c7b7a797877 ld x3, 0(x1)
8000b183 80000900 7172737475767778 8e8d8c8b8a898887 8e8d8c8b8a898887 ld x3, -2048(x1)
c183 80000100 8182838485868788 77 7e7d7c7b7a797877 lbu x3, 0(x1)
8000c183 80000900 7172737475767778 87 8e8d8c8b8a898887 lbu x3, -2048(x1)
70c183 80000100 8182838485868788 7e 7e7d7c7b7a797877 lbu x3, 7(x1)
8070c183 80000900 7172737475767778 8e 8e8d8c8b8a898887 lbu x3, -2041(x1)
d183 80000100 8182838485868788 7877 7e7d7c7b7a797877 lhu x3, 0(x1)
8000d183 80000900 7172737475767778 8887 8e8d8c8b8a898887 lhu x3, -2048(x1)
60d183 80000100 8182838485868788 7e7d 7e7d7c7b7a797877 lhu x3, 6(x1)
8060d183 80000900 7172737475767778 8e8d 8e8d8c8b8a898887 lhu x3, -2042(x1)
e183 80000100 8182838485868788 7a797877 7e7d7c7b7a797877 lwu x3, 0(x1)
8000e183 80000900 7172737475767778 8a898887 8e8d8c8b8a898887 lwu x3, -2048(x1)
40e183 80000100 8182838485868788 7e7d7c7b 7e7d7c7b7a797877 lwu x3, 4(x1)
8040e183 80000900 7172737475767778 8e8d8c8b 8e8d8c8b8a898887 lwu x3, -2044(x1)
208023 80000100 8182838485868788 0 7e7d7c7b7a797888 sb x2, 0(x1)
802080a3 800008ff 102030405060708 0 fefdfcfbfaf9f808 sb x2, -2047(x1)
2083a3 80000100 8182838485868788 0 887d7c7b7a797877 sb x2, 7(x1)
80208423 800008ff 102030405060708 0 8fdfcfbfaf9f8f7 sb x2, -2040(x1)
209023 80000100 8182838485868788 0 7e7d7c7b7a798788 sh x2, 0(x1)
802090a3 800008ff 102030405060708 0 fefdfcfbfaf90708 sh x2, -2047(x1)
209323 80000100 8182838485868788 0 87887c7b7a797877 sh x2, 6(x1)
802093a3 800008ff 102030405060708 0 708fcfbfaf9f8f7 sh x2, -2041(x1)
20a023 80000100 8182838485868788 0 7e7d7c7b85868788 sw x2, 0(x1)
8020a0a3 800008ff 102030405060708 0 fefdfcfb05060708 sw x2, -2047(x1)
20a223 80000100 8182838485868788 0 858687887a797877 sw x2, 4(x1)
8020a2a3 800008ff 102030405060708 0 5060708faf9f8f7 sw x2, -2043(x1)
20b023 80000100 8182838485868788 0 8182838485868788 sd x2, 0(x1)
8020b0a3 800008ff 102030405060708 0 102030405060708 sd x2, -2047(x1)
";

/// A word, x1, its control register before, and x3 and the register after it.
static CONTROLS: &str = "
300021f3 55 1880 1880 1880 csrrs x3, mstatus, x0
300091f3 ffffffffffffffff 1880 1880 1888 csrrw x3, mstatus, x1
300011f3 55 1880 1880 1800 csrrw x3, mstatus, x0
3000a1f3 1f00f 1880 1880 1888 csrrs x3, mstatus, x1
3000b1f3 ff 1880 1880 1800 csrrc x3, mstatus, x1
300fd1f3 55 1880 1880 1808 csrrwi x3, mstatus, 31
300051f3 55 1880 1880 1800 csrrwi x3, mstatus, 0
3004e1f3 55 1880 1880 1888 csrrsi x3, mstatus, 9
3006f1f3 55 1880 1880 1880 csrrci x3, mstatus, 13
300071f3 55 1880 1880 1880 csrrci x3, mstatus, 0
301021f3 55 8000000000001100 8000000000001100 8000000000001100 csrrs x3, misa, x0
301091f3 ffffffffffffffff 8000000000001100 8000000000001100 8000000000001100 csrrw x3, misa, x1
301011f3 55 8000000000001100 8000000000001100 8000000000001100 csrrw x3, misa, x0
3010a1f3 1f00f 8000000000001100 8000000000001100 8000000000001100 csrrs x3, misa, x1
3010b1f3 ff 8000000000001100 8000000000001100 8000000000001100 csrrc x3, misa, x1
301fd1f3 55 8000000000001100 8000000000001100 8000000000001100 csrrwi x3, misa, 31
301051f3 55 8000000000001100 8000000000001100 8000000000001100 csrrwi x3, misa, 0
3014e1f3 55 8000000000001100 8000000000001100 8000000000001100 csrrsi x3, misa, 9
3016f1f3 55 8000000000001100 8000000000001100 8000000000001100 csrrci x3, misa, 13
301071f3 55 8000000000001100 8000000000001100 8000000000001100 csrrci x3, misa, 0
304021f3 55 80 80 80 csrrs x3, mie, x0
304091f3 ffffffffffffffff 80 80 888 csrrw x3, mie, x1
304011f3 55 80 80 0 csrrw x3, mie, x0
3040a1f3 1f00f 80 80 88 csrrs x3, mie, x1
3040b1f3 ff 80 80 0 csrrc x3, mie, x1
304fd1f3 55 80 80 8 csrrwi x3, mie, 31
304051f3 55 80 80 0 csrrwi x3, mie, 0
3044e1f3 55 80 80 88 csrrsi x3, mie, 9
3046f1f3 55 80 80 80 csrrci x3, mie, 13
304071f3 55 80 80 80 csrrci x3, mie, 0
305021f3 55 80000101 80000101 80000101 csrrs x3, mtvec, x0
305091f3 ffffffffffffffff 80000101 80000101 fffffffffffffffd csrrw x3, mtvec, x1
305011f3 55 80000101 80000101 0 csrrw x3, mtvec, x0
3050a1f3 1f00f 80000101 80000101 8001f10d csrrs x3, mtvec, x1
3050b1f3 ff 80000101 80000101 80000100 csrrc x3, mtvec, x1
305fd1f3 55 80000101 80000101 1d csrrwi x3, mtvec, 31
305051f3 55 80000101 80000101 0 csrrwi x3, mtvec, 0
3054e1f3 55 80000101 80000101 80000109 csrrsi x3, mtvec, 9
3056f1f3 55 80000101 80000101 80000100 csrrci x3, mtvec, 13
305071f3 55 80000101 80000101 80000101 csrrci x3, mtvec, 0
340021f3 55 f0f0 f0f0 f0f0 csrrs x3, mscratch, x0
340091f3 ffffffffffffffff f0f0 f0f0 ffffffffffffffff csrrw x3, mscratch, x1
340011f3 55 f0f0 f0f0 0 csrrw x3, mscratch, x0
3400a1f3 1f00f f0f0 f0f0 1f0ff csrrs x3, mscratch, x1
3400b1f3 ff f0f0 f0f0 f000 csrrc x3, mscratch, x1
340fd1f3 55 f0f0 f0f0 1f csrrwi x3, mscratch, 31
340051f3 55 f0f0 f0f0 0 csrrwi x3, mscratch, 0
3404e1f3 55 f0f0 f0f0 f0f9 csrrsi x3, mscratch, 9
3406f1f3 55 f0f0 f0f0 f0f0 csrrci x3, mscratch, 13
340071f3 55 f0f0 f0f0 f0f0 csrrci x3, mscratch, 0
341021f3 55 80000004 80000004 80000004 csrrs x3, mepc, x0
341091f3 ffffffffffffffff 80000004 80000004 fffffffffffffffc csrrw x3, mepc, x1
341011f3 55 80000004 80000004 0 csrrw x3, mepc, x0
3410a1f3 1f00f 80000004 80000004 8001f00c csrrs x3, mepc, x1
3410b1f3 ff 80000004 80000004 80000000 csrrc x3, mepc, x1
341fd1f3 55 80000004 80000004 1c csrrwi x3, mepc, 31
341051f3 55 80000004 80000004 0 csrrwi x3, mepc, 0
3414e1f3 55 80000004 80000004 8000000c csrrsi x3, mepc, 9
3416f1f3 55 80000004 80000004 80000000 csrrci x3, mepc, 13
341071f3 55 80000004 80000004 80000004 csrrci x3, mepc, 0
342021f3 55 8000000000000007 8000000000000007 8000000000000007 csrrs x3, mcause, x0
342091f3 ffffffffffffffff 8000000000000007 8000000000000007 ffffffffffffffff csrrw x3, mcause, x1
342011f3 55 8000000000000007 8000000000000007 0 csrrw x3, mcause, x0
3420a1f3 1f00f 8000000000000007 8000000000000007 800000000001f00f csrrs x3, mcause, x1
3420b1f3 ff 8000000000000007 8000000000000007 8000000000000000 csrrc x3, mcause, x1
342fd1f3 55 8000000000000007 8000000000000007 1f csrrwi x3, mcause, 31
342051f3 55 8000000000000007 8000000000000007 0 csrrwi x3, mcause, 0
3424e1f3 55 8000000000000007 8000000000000007 800000000000000f csrrsi x3, mcause, 9
3426f1f3 55 8000000000000007 8000000000000007 8000000000000002 csrrci x3, mcause, 13
342071f3 55 8000000000000007 8000000000000007 8000000000000007 csrrci x3, mcause, 0
343021f3 55 ff ff ff csrrs x3, mtval, x0
343091f3 ffffffffffffffff ff ff ffffffffffffffff csrrw x3, mtval, x1
343011f3 55 ff ff 0 csrrw x3, mtval, x0
3430a1f3 1f00f ff ff 1f0ff csrrs x3, mtval, x1
3430b1f3 ff ff ff 0 csrrc x3, mtval, x1
343fd1f3 55 ff ff 1f csrrwi x3, mtval, 31
343051f3 55 ff ff 0 csrrwi x3, mtval, 0
3434e1f3 55 ff ff ff csrrsi x3, mtval, 9
3436f1f3 55 ff ff f2 csrrci x3, mtval, 13
343071f3 55 ff ff ff csrrci x3, mtval, 0
344021f3 55 808 808 808 csrrs x3, mip, x0
344091f3 ffffffffffffffff 808 808 808 csrrw x3, mip, x1
344011f3 55 808 808 808 csrrw x3, mip, x0
3440a1f3 1f00f 808 808 808 csrrs x3, mip, x1
3440b1f3 ff 808 808 808 csrrc x3, mip, x1
344fd1f3 55 808 808 808 csrrwi x3, mip, 31
344051f3 55 808 808 808 csrrwi x3, mip, 0
3444e1f3 55 808 808 808 csrrsi x3, mip, 9
3446f1f3 55 808 808 808 csrrci x3, mip, 13
344071f3 55 808 808 808 csrrci x3, mip, 0
f11021f3 55 0 0 0 csrrs x3, mvendorid, x0
f11031f3 55 0 0 0 csrrc x3, mvendorid, x0
f11061f3 55 0 0 0 csrrsi x3, mvendorid, 0
f11071f3 55 0 0 0 csrrci x3, mvendorid, 0
f12021f3 55 0 0 0 csrrs x3, marchid, x0
f12031f3 55 0 0 0 csrrc x3, marchid, x0
f12061f3 55 0 0 0 csrrsi x3, marchid, 0
f12071f3 55 0 0 0 csrrci x3, marchid, 0
f13021f3 55 0 0 0 csrrs x3, mimpid, x0
f13031f3 55 0 0 0 csrrc x3, mimpid, x0
f13061f3 55 0 0 0 csrrsi x3, mimpid, 0
f13071f3 55 0 0 0 csrrci x3, mimpid, 0
f14021f3 55 0 0 0 csrrs x3, mhartid, x0
f14031f3 55 0 0 0 csrrc x3, mhartid, x0
f14061f3 55 0 0 0 csrrsi x3, mhartid, 0
f14071f3 55 0 0 0 csrrci x3, mhartid, 0
";

/// A word, x1, and what its trap puts into mcause and mtval.
static TRAPS: &str = "
73 0 b 0 ecall
100073 0 3 0 ebreak
0 0 2 0 .word 0
ffffffff 0 2 ffffffff .word 0xffffffff
f14011f3 0 2 f14011f3 csrrw x3, mhartid, x0
f11051f3 0 2 f11051f3 csrrwi x3, mvendorid, 0
f130a1f3 0 2 f130a1f3 csrrs x3, mimpid, x1
f120e1f3 0 2 f120e1f3 csrrsi x3, marchid, 1
f140b1f3 0 2 f140b1f3 csrrc x3, mhartid, x1
f14ff1f3 0 2 f14ff1f3 csrrci x3, mhartid, 31
c00021f3 0 2 c00021f3 csrrs x3, cycle, x0
100021f3 0 2 100021f3 csrrs x3, sstatus, x0
10200073 0 2 10200073 sret
200073 0 2 200073 uret
fff09183 80000102 4 80000101 lh x3, -1(x1)
fff0d183 80000102 4 80000101 lhu x3, -1(x1)
fff0a183 80000103 4 80000102 lw x3, -1(x1)
fff0e183 80000103 4 80000102 lwu x3, -1(x1)
fff0b183 80000105 4 80000104 ld x3, -1(x1)
2090a3 80000100 6 80000101 sh x2, 1(x1)
20a0a3 80000101 6 80000102 sw x2, 1(x1)
20b0a3 80000103 6 80000104 sd x2, 1(x1)
8183 70000000 5 70000000 lb x3, 0(x1)
b183 70000000 5 70000000 ld x3, 0(x1)
208023 70000000 7 70000000 sb x2, 0(x1)
20b023 70000000 7 70000000 sd x2, 0(x1)
6001ef 0 0 80000006 jal x3, .+6
2081e7 80000000 0 80000002 jalr x3, 2(x1)
fe108fe3 0 0 7ffffffe beq x1, x1, .-2
";

/// The address of RAM's first byte, and of the bytes that loads and stores access.
const START: u64 = 0x8000_0000;

const PLACE: u64 = 0x8000_0100;

/// The numbers of a line.
fn numbers<const N: usize>(rt: &impl Abort, line: &str) -> [u64; N] {
    let mut numbers = [0; N];
    for (number, word) in numbers.iter_mut().zip(line.split(' ')) {
        *number = u64::from_str_radix(word, 16).expect(rt, "a number");
    }
    numbers
}

/// A hart at RAM's first byte, with these words in x1 and x2.
fn hart(x: u64, y: u64) -> Arch {
    let mut a = Arch::reset(START);
    a.x[1] = x;
    a.x[2] = y;
    a
}

/// What a word does over flat memory, where x2's complement lies at `PLACE`: how it ends, and the number of the 8 bytes there.
fn step(rt: &(impl Abort + AllocGlobal), a: &mut Arch, word: u64) -> (FlatEnd, u64) {
    let mut memory = FlatMem::new(rt.alloc(), 4096).expect(rt, "memory");
    memory.put(START, &low(word).to_le_bytes());
    memory.put(PLACE, &(!a.x[2]).to_le_bytes());
    let end = step_flat(a, &mut memory).end;
    let mut bytes = [0; 8];
    for (byte, address) in bytes.iter_mut().zip(PLACE..) {
        *byte = memory.byte(address).expect(rt, "a byte");
    }
    (end, u64::from_le_bytes(bytes))
}

#[test]
fn rows_compute_what_others_compute(rt: HostRuntime) {
    for line in VALUES.lines().skip(1) {
        let [w, x, y, want]: [u64; 4] = numbers(&rt, line);
        let mut a = hart(x, y);
        assert_eq!(rt; step(&rt, &mut a, w), (FlatEnd::Retired, !y), "{line}");
        assert_eq!(rt; (a.x[3], a.pc), (want, START + 4), "{line}");
    }
}

#[test]
fn jumps_and_branches_go_where_others_go(rt: HostRuntime) {
    for line in TARGETS.lines().skip(1) {
        let [w, x, y, link, pc]: [u64; 5] = numbers(&rt, line);
        let mut a = hart(x, y);
        assert_eq!(rt; step(&rt, &mut a, w), (FlatEnd::Retired, !y), "{line}");
        assert_eq!(rt; (a.x[3], a.pc), (link, pc), "{line}");
    }
}

#[test]
fn loads_and_stores_access_what_others_access(rt: HostRuntime) {
    for line in ACCESSES.lines().skip(1) {
        let [w, x, y, value, after]: [u64; 5] = numbers(&rt, line);
        let mut a = hart(x, y);
        assert_eq!(rt; step(&rt, &mut a, w), (FlatEnd::Retired, after), "{line}");
        assert_eq!(rt; (a.x[3], a.pc), (value, START + 4), "{line}");
    }
}

/// The control register that a word names, where it can be told from the others by what it holds.
fn control(a: &mut Arch, w: u64) -> Option<&mut u64> {
    match w >> 20 {
        0x300 => Some(&mut a.mstatus),
        0x304 => Some(&mut a.mie),
        0x305 => Some(&mut a.mtvec),
        0x340 => Some(&mut a.mscratch),
        0x341 => Some(&mut a.mepc),
        0x342 => Some(&mut a.mcause),
        0x343 => Some(&mut a.mtval),
        0x344 => Some(&mut a.mip),
        _ => None,
    }
}

#[test]
fn control_registers_keep_what_the_manual_says(rt: HostRuntime) {
    for line in CONTROLS.lines().skip(1) {
        let [w, x, before, value, after]: [u64; 5] = numbers(&rt, line);
        let mut a = hart(x, 0);
        if let Some(register) = control(&mut a, w) {
            *register = before;
        }
        assert_eq!(rt; step(&rt, &mut a, w).0, FlatEnd::Retired, "{line}");
        assert_eq!(rt; (a.x[3], a.pc), (value, START + 4), "{line}");
        if let Some(register) = control(&mut a, w) {
            assert_eq!(rt; *register, after, "{line}");
        }
    }
}

#[test]
fn traps_have_the_manuals_cause_and_value(rt: HostRuntime) {
    for line in TRAPS.lines().skip(1) {
        let [w, x, cause, value]: [u64; 4] = numbers(&rt, line);
        let mut a = hart(x, 0);
        a.mtvec = 0x8000_0200;
        a.mstatus = 0x1808;
        assert_eq!(rt;
            step(&rt, &mut a, w),
            (FlatEnd::Trapped, u64::MAX),
            "{line}"
        );
        assert_eq!(rt; (a.mcause, a.mtval), (cause, value), "{line}");
        assert_eq!(rt;
            (a.pc, a.mepc, a.mstatus),
            (0x8000_0200, START, 0x1880),
            "{line}"
        );
        assert_eq!(rt; a.x[3], 0, "{line}");
    }
}
