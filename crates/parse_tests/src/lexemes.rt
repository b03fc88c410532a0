// Tables of lexemes, each with its place behind an `@`. A symbol is told by its name, a name as its word and its spelling, an aggregate as
// its function and its spelling, an integer with a `!` where it is alone, a blob in hexadecimal.
use crate::rows::{Kind, all_told};
use std::test::Fail;

const LEXEMES_AND_PLACES: &[u8] = b"{}
Select{Select@0}
\"select\"{Quoted=select@0}
BeGin{Begin=BeGin@0}
sElf{Other=sElf@0}
t.a{Other=t@0 Dot@1 Other=a@2}
t.5{Other=t@0 Float@1}
count{Other=count@0}
count({Count(count)@0 Open@5}
COUNT\n({Count(COUNT)@0 Open@6}
count){Other=count@0 Close@5}
counts({Other=counts@0 Open@6}
\"count\"({Quoted=count@0 Open@7}
sum(Min(mAx({Sum(sum)@0 Open@3 Min(Min)@4 Open@7 Max(mAx)@8 Open@11}
max min({Other=max@0 Min(min)@4 Open@7}
(),;.{Open@0 Close@1 Comma@2 Semicolon@3 Dot@4}
* / % + -{Star@0 Slash@2 Percent@4 Plus@6 Minus@8}
= == <> !={Equal@0 Equal@2 Unequal@5 Unequal@8}
< <= > >={Less@0 AtMost@2 More@5 AtLeast@7}
1{1!@0}
1 + 2{1@0 Plus@2 2!@4}
1-2{1@0 Minus@1 2!@2}
1=2==3{1@0 Equal@1 2@2 Equal@3 3!@5}
1<>2!=3{1@0 Unequal@1 2@3 Unequal@4 3!@6}
1<2<=3{1@0 Less@1 2@2 AtMost@3 3!@5}
1>2>=3{1@0 More@1 2@2 AtLeast@3 3!@5}
1*2/3%4{1@0 Star@1 2@2 Slash@3 3@4 Percent@5 4!@6}
1 or 2 and 3 is{1@0 Or@2 2@5 And@7 3@11 Is@13}
1 \"or\"{1!@0 Quoted=or@2}
1,{1!@0 Comma@1}
1){1!@0 Close@1}
1 desc{1!@0 Desc=desc@2}
1 not{1!@0 Not@2}
1 2{1!@0 2!@2}
1 ${1!@0 Bad@2}
1''{1!@0 text=@1}
9223372036854775807{9223372036854775807!@0}
9223372036854775808{Least@0}
9223372036854775809{Huge@0}
-9223372036854775808{Minus@0 Least@1}
18446744073709551615{Huge@0}
18446744073709551616{Huge@0}
27670116110564327424{Huge@0}
99999999999999999999999999999999999999{Huge@0}
00000000000000000000000000000007{7!@0}
00000000000000009223372036854775808{Least@0}
1. .5 1e5 1.5E-3{Float@0 Float@3 Float@6 Float@10}
1e{1!@0 Other=e@1}
'it''s'{text=it's@0}
''''{text='@0}
'\"'{text=\"@0}
'a''''b'{text=a''b@0}
'\xff\0'{text=\xff\0@0}
\"a\"\"b\"{Quoted=a\"b@0}
\"\"{Quoted=@0}
x''{blob=@0}
X'00fFA9'{blob=00ffa9@0}
a ! b{Other=a@0 Bad@2}
'{Bad@0}
x'1'{Bad@0}
\xc3{Bad@0}
";

const EACH_WORD: &[u8] = b"AND{And@0}
AS{As@0}
CHECK{Check@0}
COLLATE{Collate@0}
CONSTRAINT{Constraint@0}
CREATE{Create@0}
DEFAULT{Default@0}
DELETE{Delete@0}
DROP{Drop@0}
FROM{From@0}
GROUP{Group@0}
INDEX{Index@0}
INSERT{Insert@0}
INTO{Into@0}
IS{Is@0}
JOIN{Join@0}
LIMIT{Limit@0}
NOT{Not@0}
NULL{Null@0}
ON{On@0}
OR{Or@0}
ORDER{Order@0}
PRIMARY{Primary@0}
REFERENCES{References@0}
SELECT{Select@0}
SET{Set@0}
TABLE{Table@0}
UNIQUE{Unique@0}
UPDATE{Update@0}
VALUES{Values@0}
WHERE{Where@0}
ASC{Asc=ASC@0}
AUTOINCREMENT{Autoincrement=AUTOINCREMENT@0}
BEGIN{Begin=BEGIN@0}
BLOB{Blob=BLOB@0}
BY{By=BY@0}
COMMIT{Commit=COMMIT@0}
CONCURRENT{Concurrent=CONCURRENT@0}
CROSS{Cross=CROSS@0}
DEFERRED{Deferred=DEFERRED@0}
DESC{Desc=DESC@0}
END{End=END@0}
FULL{Full=FULL@0}
INNER{Inner=INNER@0}
INTEGER{Integer=INTEGER@0}
KEY{Key=KEY@0}
LEFT{Left=LEFT@0}
NATURAL{Natural=NATURAL@0}
OFFSET{Offset=OFFSET@0}
OUTER{Outer=OUTER@0}
RIGHT{Right=RIGHT@0}
ROLLBACK{Rollback=ROLLBACK@0}
TEXT{Text=TEXT@0}
TRANSACTION{Transaction=TRANSACTION@0}
ROWID{Other=ROWID@0}
SUM{Other=SUM@0}
A{Other=A@0}
OFF{Other=OFF@0}
OFFSETS{Other=OFFSETS@0}
ZEBRA{Other=ZEBRA@0}
__{Other=__@0}
";

#[test]
fn lexemes_of_texts(rt: HostRuntime) -> Result<(), Fail> {
    for table in [LEXEMES_AND_PLACES, EACH_WORD] {
        all_told(&rt, rt.alloc(), Kind::Lexemes, table)?;
    }
    Ok(())
}
