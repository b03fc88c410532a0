// Tables of tokens. Each is told as the letter of its kind, its first place and the place after its last: `w0-3` is a word of three
// bytes. `bad 2` is a fault at the third byte.
use crate::rows::{Kind, all_told};
use std::test::Fail;

const WORDS_QUOTES_AND_BLOBS: &[u8] = b"{}
 \t\n\x0c\r{}
a{w0-1}
_a9 B{w0-3 w4-5}
9a{n0-1 w1-2}
SELECT * FROM t;{w0-6 s7-8 w9-13 w14-15 s15-16}
\"a b\"{q0-5}
\"a\"\"b\"{q0-6}
\"\"{q0-2}
\"a{bad 0}
\"a\"\"{bad 0}
a\"b\"{w0-1 q1-4}
'a'{t0-3}
''{t0-2}
''''{t0-4}
'it''s'{t0-7}
'a' 'b'{t0-3 t4-7}
'a'\"b\"{t0-3 q3-6}
'a'x'12'{t0-3 b3-8}
'a{bad 0}
'a''{bad 0}
x 'a{bad 2}
'--'{t0-4}
x''{b0-3}
x'0a'{b0-5}
X'AbCdEf'{b0-9}
x'1'{bad 0}
x'123'{bad 0}
x'1g'{bad 0}
x'12{bad 0}
x'12''{bad 5}
x '12'{w0-1 t2-6}
ax'12'{w0-2 t2-6}
xx'12'{w0-2 t2-6}
0x'12'{n0-1 b1-6}
x{w0-1}
";

const NUMBERS_SIGNS_AND_OTHER_BYTES: &[u8] = b"1{n0-1}
1.{n0-2}
.5{n0-2}
.{s0-1}
1.5{n0-3}
1..2{n0-2 n2-4}
1.2.3{n0-3 n3-5}
1e{n0-1 w1-2}
1e5{n0-3}
1E+5{n0-4}
1e-5e5{n0-4 w4-6}
1e+{n0-1 w1-2 s2-3}
1e+x{n0-1 w1-2 s2-3 w3-4}
1.e5{n0-4}
.5e1{n0-4}
.e1{s0-1 w1-3}
a.b{w0-1 s1-2 w2-3}
a.5{w0-1 n1-3}
0x1F{n0-1 w1-4}
1_000{n0-1 w1-5}
= =={s0-1 s2-4}
==={s0-2 s2-3}
<><=>=!={s0-2 s2-4 s4-6 s6-8}
<<>>{s0-1 s1-3 s3-4}
=<{s0-1 s1-2}
(),;*/%+-{s0-1 s1-2 s2-3 s3-4 s4-5 s5-6 s6-7 s7-8 s8-9}
!{bad 0}
a ! = b{bad 2}
--{s0-1 s1-2}
-- no{s0-1 s1-2 w3-5}
/* */{s0-1 s1-2 s3-4 s4-5}
a || b{bad 2}
a&b{bad 1}
$1{bad 0}
?1{bad 0}
[a]{bad 0}
`a`{bad 0}
a:b{bad 1}
a\x0bb{bad 1}
a\0{bad 1}
'\0'{t0-3}
'\xff'{t0-3}
\"\xc3\xa4\"{q0-4}
\xc3\xa4{bad 0}
a\xc3\xa4{bad 1}
";

#[test]
fn tokens_of_texts(rt: HostRuntime) -> Result<(), Fail> {
    for table in [WORDS_QUOTES_AND_BLOBS, NUMBERS_SIGNS_AND_OTHER_BYTES] {
        all_told(&rt, rt.alloc(), Kind::Tokens, table)?;
    }
    Ok(())
}
