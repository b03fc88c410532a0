// Texts, each with the statement that it is, or with its fault: its kind, and the place where it goes wrong, counted in bytes from 0.
//
// A table has a row on each line, `text{what it is}`. A statement is written so: an operator stands in brackets with its sides, `!a` is
// NOT a, `null a` and `some a` are a IS NULL and a IS NOT NULL, `count a` is COUNT(a), `count*` is COUNT(*). A text stands in quotes and
// a blob in backquotes, with their bytes as they are. `t/u` is the table t named u, `by a down` is ORDER BY a DESC. A column's affinity
// is :i, :t or :b, :key is the rowid and :some is NOT NULL.
use crate::rows::{Kind, all_told};
use std::test::Fail;

const TRANSACTIONS: &[u8] = b"BEGIN{begin}
begin deferred transaction;{begin}
BEGIN TRANSACTION{begin}
BEGIN DEFERRED{begin}
COMMIT{commit}
COMMIT TRANSACTION;{commit}
END{commit}
END TRANSACTION{commit}
ROLLBACK{rollback}
Rollback Transaction{rollback}
BEGIN CONCURRENT{syntax 6}
BEGIN DEFERRED CONCURRENT{syntax 15}
BEGIN DEFERRED DEFERRED{syntax 15}
BEGIN TRANSACTION DEFERRED{syntax 18}
BEGIN IMMEDIATE{syntax 6}
COMMIT WORK{syntax 7}
ROLLBACK TO a{syntax 9}
END 1{syntax 4}
BEGIN;;{syntax 6}
COMMIT; BEGIN{syntax 8}
";

const NOTHING_AND_OTHER_BYTES: &[u8] = b"{syntax 0}
;{syntax 0}
   {syntax 3}
 \t\n\x0c\r BEGIN \t{begin}
\"BEGIN\"{syntax 0}
BEGIN \x0bTRANSACTION{syntax 6}
EXPLAIN SELECT 1{syntax 0}
x{syntax 0}
1{syntax 0}
-- a\nBEGIN{syntax 0}
BEGIN -- a{syntax 6}
BEGIN /* a */{syntax 6}
BEGIN\0{syntax 5}
SELECT \xff{syntax 7}
SELECT 1 \xc3\xa9{syntax 9}
SELECT '\xff\0'{select '\xff\0'}
SELECT #{syntax 7}
SELECT 1 !{syntax 9}
SELECT $a{syntax 7}
SELECT a[1]{syntax 8}
1.5{float 0}
";

const CREATE_TABLE: &[u8] =
    b"CREATE TABLE t(a INTEGER PRIMARY KEY, b TEXT NOT NULL, c BLOB, d){table t a:i:key b:t:some c:b d:b}
create table t (a integer not null primary key){table t a:i:key:some}
CREATE TABLE t(a INTEGER PRIMARY KEY NOT NULL);{table t a:i:key:some}
CREATE TABLE \"select\"(\"a b\" TEXT){table select a b:t}
CREATE TABLE \"a\"\"b\"(c){table a\"b c:b}
CREATE TABLE t(){syntax 15}
CREATE TABLE t(a,){syntax 17}
CREATE TABLE t(a TEXT PRIMARY KEY){syntax 22}
CREATE TABLE t(a PRIMARY KEY){syntax 17}
CREATE TABLE t(a INTEGER PRIMARY NOT NULL){syntax 33}
CREATE TABLE t(a INTEGER PRIMARY KEY, b INTEGER PRIMARY KEY){syntax 48}
CREATE TABLE t(a INTEGER PRIMARY KEY PRIMARY KEY){syntax 37}
CREATE TABLE t(a NOT NULL NOT NULL){syntax 26}
CREATE TABLE t(a NOT 1){syntax 21}
CREATE TABLE t(a REAL){syntax 17}
CREATE TABLE t(a INT){syntax 17}
CREATE TABLE t(a INTEGER(5)){syntax 24}
CREATE TABLE t(a TEXT TEXT){syntax 22}
CREATE TABLE t(a TEXT UNIQUE){syntax 22}
CREATE TABLE t(a INTEGER PRIMARY KEY AUTOINCREMENT){syntax 37}
CREATE TABLE t(a \"INTEGER\"){syntax 17}
CREATE TABLE sqlite_t(a){syntax 13}
CREATE TABLE SQLite_(a){syntax 13}
CREATE TABLE \"sqlite_t\"(a){syntax 13}
CREATE TABLE sqlite(a){table sqlite a:b}
CREATE TABLE t(sqlite_a){table t sqlite_a:b}
CREATE TABLE count(a){table count a:b}
CREATE TABLE t(a) b{syntax 18}
CREATE TEMP TABLE t(a){syntax 7}
CREATE TABLE IF NOT EXISTS t(a){syntax 16}
CREATE TABLE t AS SELECT 1{syntax 15}
CREATE TABLE table(a){syntax 13}
CREATE TABLE 't'(a){syntax 13}
CREATE TABLE t(a, PRIMARY KEY(a)){syntax 18}
CREATE TABLE t(a DEFAULT 1){syntax 17}
CREATE TABLE t(a CHECK (a)){syntax 17}
CREATE TABLE t(a{syntax 16}
CREATE {syntax 7}
";

const INDEXES_AND_DROP: &[u8] = b"CREATE INDEX i ON t(a){index i t a}
CREATE UNIQUE INDEX i ON t(a, \"b c\");{unique index i t a b c}
CREATE INDEX i ON count(rowid){index i count rowid}
CREATE INDEX i ON t(a DESC){syntax 22}
CREATE INDEX i ON t(){syntax 20}
CREATE INDEX sqlite_i ON t(a){syntax 13}
CREATE UNIQUE TABLE t(a){syntax 14}
CREATE INDEX i ON t(a) WHERE a{syntax 23}
CREATE INDEX i t(a){syntax 15}
CREATE INDEX ON t(a){syntax 13}
CREATE INDEX i ON t(a+1){syntax 21}
CREATE INDEX i ON t(a,b,c,d,e,f,g,h,i,j,k,l,m,n,o,p){index i t a b c d e f g h i j k l m n o p}
CREATE INDEX i ON t(a,b,c,d,e,f,g,h,i,j,k,l,m,n,o,p,q){syntax 51}
DROP TABLE t{drop t}
drop table sqlite_t;{drop sqlite_t}
DROP INDEX i{syntax 5}
DROP TABLE (t){syntax 11}
DROP TABLE t, u{syntax 12}
DROP TABLE IF EXISTS t{syntax 14}
DROP TABLE {syntax 11}
";

const INSERT: &[u8] = b"INSERT INTO t VALUES (1, 'a', NULL){insert t row 1 'a' null}
INSERT INTO t(a, b) VALUES (1, 2), (3, 4){insert t a b row 1 2 row 3 4}
INSERT INTO t VALUES (x'4142', X'', 'it''s'){insert t row `AB` `` 'it's'}
INSERT INTO count(a) VALUES (count){insert count a row count}
INSERT INTO t VALUES (-1 + a);{insert t row ((-1)+a)}
INSERT INTO t() VALUES (1){syntax 14}
INSERT INTO t VALUES (){syntax 22}
INSERT INTO t VALUES (1),{syntax 25}
INSERT INTO t VALUES (1,){syntax 24}
INSERT INTO t VALUES (COUNT(*)){syntax 22}
INSERT INTO t VALUES (1) (2){syntax 25}
INSERT INTO t VALUES 1{syntax 21}
INSERT INTO t SELECT 1{syntax 14}
INSERT OR REPLACE INTO t VALUES (1){syntax 7}
INSERT INTO t DEFAULT VALUES{syntax 14}
INSERT INTO t(a.b) VALUES (1){syntax 15}
INSERT INTO t AS u VALUES (1){syntax 14}
REPLACE INTO t VALUES (1){syntax 0}
INSERT t VALUES (1){syntax 7}
INSERT INTO t VALUES (1.5){float 22}
INSERT INTO t VALUES (1, 2e3){float 25}
";

const UPDATE_AND_DELETE: &[u8] = b"UPDATE t SET a = 1{update t a:=1}
UPDATE t SET a = a + 1, b = 'x' WHERE a > 5;{update t a:=(a+1) b:='x' where (a>5)}
UPDATE t SET a == 1{update t a:=1}
UPDATE t SET a = 1 = 2{update t a:=(1=2)}
UPDATE t SET 1 = 1{syntax 13}
UPDATE t SET t.a = 1{syntax 14}
UPDATE t a = 1{syntax 9}
UPDATE t SET a = 1 LIMIT 1{syntax 19}
UPDATE t SET a = SUM(b){syntax 17}
UPDATE t SET a = 1, WHERE b{syntax 20}
UPDATE t SET (a) = 1{syntax 13}
UPDATE t SET a < 1{syntax 15}
UPDATE SET a = 1{syntax 7}
DELETE FROM t{delete t}
DELETE FROM t WHERE a IS NULL{delete t where (null a)}
DELETE FROM t WHERE max = 1;{delete t where (max=1)}
DELETE t{syntax 7}
DELETE FROM t u{syntax 14}
DELETE FROM t WHERE ;{syntax 20}
DELETE FROM t WHERE MAX(a) = 1{syntax 20}
DELETE FROM t WHERE a = .5{float 24}
";

const SELECT: &[u8] = b"SELECT 1{select 1}
sElEcT A fRoM T{select A from T/T}
SELECT * FROM t{select * from t/t}
SELECT FROM t{syntax 7}
SELECT *{syntax 8}
SELECT *, a FROM t{syntax 8}
SELECT a, * FROM t{syntax 10}
SELECT t.* FROM t{syntax 9}
SELECT * WHERE 1{syntax 9}
SELECT a AS b, c FROM t{select a c from t/t}
SELECT a AS \"x y\"{select a}
SELECT a AS count{select a}
SELECT a b FROM t{syntax 9}
SELECT a AS 1{syntax 12}
SELECT a AS SELECT{syntax 12}
SELECT a,{syntax 9}
SELECT 1 WHERE 0{select 1 where 0}
SELECT 1 GROUP BY 1 ORDER BY (1) LIMIT 1{select 1 group 1 by 1 limit 1}
SELECT a FROM t WHERE a = 1 GROUP BY a, b ORDER BY a DESC, b ASC, c LIMIT 10 OFFSET 5;{select a from t/t where (a=1) group a group b by a down by b by c limit 10 offset 5}
SELECT a FROM t ORDER BY a WHERE 1{syntax 27}
SELECT a FROM t LIMIT 1 ORDER BY a{syntax 24}
SELECT a FROM t GROUP a{syntax 22}
SELECT a FROM t ORDER a{syntax 22}
SELECT a FROM t GROUP BY SUM(a){syntax 25}
SELECT a FROM t GROUP BY a HAVING 1{syntax 27}
SELECT a FROM t HAVING 1{syntax 23}
SELECT a FROM t UNION SELECT 1{syntax 22}
SELECT DISTINCT a FROM t{syntax 16}
SELECT a FROM t ORDER BY a DESC ASC{syntax 32}
SELECT a FROM t ORDER BY asc{select a from t/t by asc}
SELECT a FROM t ORDER BY desc desc{select a from t/t by desc down}
SELECT 1 LIMIT -1{syntax 15}
SELECT 1 LIMIT a{syntax 15}
SELECT 1 LIMIT 1 OFFSET +1{syntax 24}
SELECT 1 LIMIT 1, 2{syntax 16}
SELECT 1 LIMIT 1 + 1{syntax 17}
SELECT 1 LIMIT (1){syntax 15}
SELECT 1 LIMIT 9223372036854775807{select 1 limit 9223372036854775807}
SELECT 1 LIMIT 9223372036854775808{syntax 15}
SELECT 1 LIMIT 1 OFFSET 9223372036854775807{select 1 limit 1 offset 9223372036854775807}
SELECT 1 LIMIT 1 OFFSET 9223372036854775808{syntax 24}
SELECT 1 LIMIT 1.0{float 15}
SELECT 1 OFFSET 1{syntax 9}
SELECT 1 LIMIT 0 OFFSET 0{select 1 limit 0 offset 0}
";

const TABLES_OF_FROM: &[u8] = b"SELECT a FROM t AS u, v w{select a from t/u from v/w}
SELECT a FROM t JOIN u ON t.a = u.b JOIN v AS w ON 1{select a from t/t from u/u from v/w on (t.a=u.b) on 1}
SELECT a FROM t, u JOIN v ON 1, w{select a from t/t from u/u from v/v from w/w on 1}
SELECT a FROM t JOIN u{syntax 22}
SELECT a FROM t JOIN u WHERE 1{syntax 23}
SELECT a FROM t, u ON 1{syntax 19}
SELECT a FROM (SELECT 1){syntax 14}
SELECT a FROM t,{syntax 16}
SELECT a FROM t u v{syntax 18}
SELECT a FROM 't'{syntax 14}
SELECT a FROM t AS JOIN{syntax 19}
SELECT a FROM t CROSS JOIN u{syntax 16}
SELECT a FROM t FULL JOIN u ON 1{syntax 16}
SELECT a FROM t INNER JOIN u ON 1{syntax 16}
SELECT a FROM t LEFT JOIN u ON 1{syntax 16}
SELECT a FROM t NATURAL JOIN u{syntax 16}
SELECT a FROM t OUTER JOIN u{syntax 16}
SELECT a FROM t RIGHT JOIN u ON 1{syntax 16}
SELECT a FROM t AS left{select a from t/left}
SELECT a FROM t \"left\"{select a from t/left}
SELECT a FROM left{select a from left/left}
SELECT left FROM t count{select left from t/count}
SELECT a FROM t OFFSET 1{syntax 23}
SELECT a FROM t asc{select a from t/asc}
SELECT a FROM t JOIN u ON MIN(a){syntax 26}
SELECT a FROM t WHERE COUNT(*) > 1{syntax 22}
SELECT 1 FROM a,b,c,d,e,f,g JOIN h ON 1{select 1 from a/a from b/b from c/c from d/d from e/e from f/f from g/g from h/h on 1}
SELECT 1 FROM a,b,c,d,e,f,g,h,i{syntax 29}
SELECT 1 FROM a,b,c,d,e,f,g,h JOIN i ON 1{syntax 30}
";

const ORDER_BY_INTEGERS_AND_AGGREGATES: &[u8] = b"SELECT a FROM t ORDER BY 1{syntax 25}
SELECT a FROM t ORDER BY 1, a{syntax 25}
SELECT a FROM t ORDER BY a, 2 DESC{syntax 28}
SELECT a FROM t ORDER BY 1 x{syntax 25}
SELECT a FROM t ORDER BY 1){syntax 25}
SELECT a FROM t ORDER BY 1.5{float 25}
SELECT a FROM t ORDER BY 1 ={syntax 28}
SELECT a FROM t ORDER BY 1 + 1{select a from t/t by (1+1)}
SELECT a FROM t ORDER BY +1{select a from t/t by (+1)}
SELECT a FROM t ORDER BY -1{select a from t/t by (-1)}
SELECT a FROM t ORDER BY (1){select a from t/t by 1}
SELECT a FROM t ORDER BY 1 IS NULL{select a from t/t by (null 1)}
SELECT a FROM t ORDER BY 1 * 2 DESC{select a from t/t by (1*2) down}
SELECT a FROM t ORDER BY NOT 1{select a from t/t by (!1)}
SELECT a FROM t ORDER BY a + 1{select a from t/t by (a+1)}
SELECT a FROM t ORDER BY -9223372036854775808{select a from t/t by -9223372036854775808}
SELECT a FROM t ORDER BY '1', NULL{select a from t/t by '1' by null}
SELECT SUM(a), COUNT(*) FROM t ORDER BY COUNT(b) DESC, MIN(a) + 1{select (sum a) count* from t/t by (count b) down by ((min a)+1)}
SELECT max(a + 1) - Min(b){select ((max (a+1))-(min b))}
SELECT COUNT ( * ){select count*}
SELECT count, sum FROM t{select count sum from t/t}
SELECT count.a FROM count{select count.a from count/count}
SELECT COUNT() FROM t{syntax 13}
SELECT SUM(*) FROM t{syntax 11}
SELECT SUM(COUNT(*)) FROM t{syntax 11}
SELECT COUNT(1 + MAX(a)) FROM t{syntax 17}
SELECT MAX(a, b) FROM t{syntax 12}
SELECT COUNT(*, a){syntax 14}
SELECT \"COUNT\"(a){syntax 14}
SELECT abs(a){syntax 10}
SELECT t.count(a){syntax 14}
SELECT COUNT(DISTINCT a){syntax 22}
";

const LEVELS: &[u8] = b"SELECT 1 + 2 * 3 - 4 / 5 % 6{select ((1+(2*3))-((4/5)%6))}
SELECT 1 - 2 - 3{select ((1-2)-3)}
SELECT 8 / 4 / 2{select ((8/4)/2)}
SELECT a OR b AND NOT c = d{select (a|(b&(!(c=d))))}
SELECT a AND b OR c AND d{select ((a&b)|(c&d))}
SELECT NOT NOT a{select (!(!a))}
SELECT a = b <> c == d != e{select ((((a=b)<>c)=d)<>e)}
SELECT a < b <= c > d >= e{select ((((a<b)<=c)>d)>=e)}
SELECT a < b = c + 1 < d{select ((a<b)=((c+1)<d))}
SELECT a IS NULL IS NOT NULL{select (some (null a))}
SELECT a = b IS NULL{select (null (a=b))}
SELECT a IS NULL = b{select ((null a)=b)}
SELECT a = b + 1 IS NULL{select (null (a=(b+1)))}
SELECT a IS NULL < 1{syntax 17}
SELECT a IS NULL + 1{syntax 17}
SELECT 1 = NOT 2{syntax 11}
SELECT - NOT 1{syntax 9}
SELECT 1 + NOT 2{syntax 11}
SELECT NOT 1 = 2{select (!(1=2))}
SELECT NOT a AND b{select ((!a)&b)}
SELECT a AND NOT b{select (a&(!b))}
SELECT - - 1{select (-(-1))}
SELECT --1{select (-(-1))}
SELECT 1--1{select (1-(-1))}
SELECT -a * b{select ((-a)*b)}
SELECT +a{select (+a)}
SELECT 1 + + 2{select (1+(+2))}
SELECT -a IS NULL{select (null (-a))}
SELECT a IS b{syntax 12}
SELECT a IS NOT b{syntax 16}
SELECT a IS NOT{syntax 15}
SELECT a NOT NULL{syntax 9}
SELECT a ISNULL{syntax 9}
SELECT a IN (1){syntax 9}
SELECT a LIKE b{syntax 9}
SELECT a BETWEEN 1 AND 2{syntax 9}
SELECT a || b{syntax 9}
SELECT a & b{syntax 9}
SELECT ?{syntax 7}
SELECT :a{syntax 7}
SELECT @a{syntax 7}
SELECT ~a{syntax 7}
SELECT CASE WHEN 1{syntax 12}
SELECT CAST(a AS TEXT){syntax 11}
SELECT a +{syntax 10}
SELECT * + 1{syntax 9}
SELECT = 1{syntax 7}
SELECT a = = b{syntax 11}
";

const TERMS: &[u8] = b"SELECT (1 + 2) * 3{select ((1+2)*3)}
SELECT ((a)){select a}
SELECT (){syntax 8}
SELECT (1{syntax 9}
SELECT (SELECT 1){syntax 8}
SELECT 1){syntax 8}
SELECT (1, 2){syntax 9}
SELECT t.a, \"t\".\"b c\", rowid{select t.a t.b c rowid}
SELECT t.1{float 8}
SELECT t.select{syntax 9}
SELECT t.{syntax 9}
SELECT a.b.c{syntax 10}
SELECT .a{syntax 7}
SELECT \"\"{select }
SELECT 9223372036854775807{select 9223372036854775807}
SELECT 9223372036854775808{syntax 7}
SELECT -9223372036854775808{select -9223372036854775808}
SELECT - 9223372036854775808{select -9223372036854775808}
SELECT 1 - 9223372036854775808{syntax 11}
SELECT -9223372036854775809{syntax 8}
SELECT +9223372036854775808{syntax 8}
SELECT -+9223372036854775808{syntax 9}
SELECT - -9223372036854775808{select (--9223372036854775808)}
SELECT -(9223372036854775808){syntax 9}
SELECT 0009223372036854775807, 00{select 9223372036854775807 0}
SELECT 18446744073709551616{syntax 7}
SELECT 1.{float 7}
SELECT .5{float 7}
SELECT 1e5{float 7}
SELECT 1E+5{float 7}
SELECT 1e-5x{float 7}
SELECT 1e{syntax 8}
SELECT 1e+{syntax 8}
SELECT 1 2.5{float 9}
SELECT 1..2{float 7}
SELECT -1.5{float 8}
SELECT a FROM 1.5{float 14}
SELECT 1 LIMIT 2 3.{float 17}
SELECT 0x1F{syntax 8}
SELECT 0x'1F'{syntax 8}
SELECT 'a''b', '', ''''{select 'a'b' '' '''}
SELECT 'a{syntax 7}
SELECT 'a''{syntax 7}
SELECT \"a{syntax 7}
SELECT x'1'{syntax 7}
SELECT x'1g'{syntax 7}
SELECT x'12{syntax 7}
SELECT x'12' 'a'{syntax 13}
SELECT a x'12'{syntax 9}
SELECT X'00ff' = x'4a4B'{select (`\0\xff`=`JK`)}
";

const TEXTS_OF_TABLES: &[u8] =
    b"CREATE TABLE t(a INTEGER PRIMARY KEY, b TEXT NOT NULL){usable a:i:key b:t:some}
CREATE TABLE t(a INT, b VARCHAR(10), c CLOB, d BLOB, e, f BIGINT UNSIGNED){usable a:i b:t c:t d:b e:b f:i}
create table \"t\"(\"a\" text(1,2));{usable a:t}
CREATE TABLE t(a DECIMAL(10, 5)){unusable}
CREATE TABLE t(a TEXT, b REAL){unusable}
CREATE TABLE t(a REAL UNIQUE, b TEXT){unusable}
CREATE TABLE t(a count(1)){unusable}
CREATE TABLE t(a TEXT UNIQUE){read only a:t}
CREATE TABLE t(a INTEGER PRIMARY KEY AUTOINCREMENT){read only a:i:key}
CREATE TABLE t(a INTEGER PRIMARY KEY AUTOINCREMENT NOT NULL, b){read only a:i:key:some b:b}
CREATE TABLE t(a PRIMARY KEY){read only a:b}
CREATE TABLE t(a INT PRIMARY KEY){read only a:i}
CREATE TABLE t(a INTEGER(4) PRIMARY KEY){read only a:i}
CREATE TABLE t(a INTEGER INTEGER PRIMARY KEY){read only a:i}
CREATE TABLE t(a TEXT NOT NULL PRIMARY KEY){read only a:t:some}
CREATE TABLE t(a UNIQUE NOT NULL PRIMARY KEY){read only a:b:some}
CREATE TABLE t(a NOT NULL UNIQUE){read only a:b:some}
CREATE TABLE t(a INTEGER PRIMARY KEY UNIQUE NOT NULL){read only a:i:key:some}
CREATE TABLE t(a xINTx, b charint, c FLOATING POINT, d blobtext, e int blob, f NCHAR, g AUTOINCREMENT BLOB){usable a:i b:i c:i d:t e:i f:t g:b}
CREATE TABLE t(a UNIQUE UNIQUE){syntax 24}
CREATE TABLE t(a PRIMARY KEY NOT NULL AUTOINCREMENT){syntax 38}
CREATE TABLE t(a NOT NULL NOT NULL){syntax 26}
CREATE TABLE t(a PRIMARY KEY, b PRIMARY KEY){syntax 32}
CREATE TABLE t(a DEFAULT 1){syntax 17}
CREATE TABLE t(a TEXT COLLATE NOCASE){syntax 22}
CREATE TABLE t(a REFERENCES u){syntax 17}
CREATE TABLE t(a, PRIMARY KEY (a)){syntax 18}
CREATE TABLE t(a, UNIQUE (a)){syntax 18}
CREATE TABLE t(a, CHECK (a)){syntax 18}
CREATE TABLE t(a CONSTRAINT c NOT NULL){syntax 17}
CREATE TABLE t(a \"TEXT\"){syntax 17}
CREATE TABLE t(a TEXT()){syntax 22}
CREATE TABLE t(a TEXT(-1)){syntax 22}
CREATE TABLE t(a TEXT(1, 2, 3)){syntax 26}
CREATE TABLE t(a TEXT(9223372036854775807)){usable a:t}
CREATE TABLE t(a TEXT(9223372036854775808)){syntax 22}
CREATE TABLE t(a TEXT(1.5)){float 22}
CREATE TABLE t(a TEXT(1) TEXT){syntax 25}
CREATE TABLE t(a (5)){syntax 17}
CREATE TABLE sqlite_sequence(name, seq){syntax 13}
CREATE VIEW v AS SELECT 1{syntax 7}
CREATE VIRTUAL TABLE v USING fts5(a){syntax 7}
CREATE TABLE t(a) WITHOUT ROWID{syntax 18}
CREATE TABLE t(a) STRICT{syntax 18}
{syntax 0}
SELECT 1{syntax 0}
CREATE TABLE t(a{syntax 16}
";

const TEXTS_OF_INDEXES: &[u8] = b"CREATE INDEX i ON t(a){index t a}
CREATE UNIQUE INDEX i ON t(a, b){unique index t a b}
CREATE INDEX i ON t(a DESC){syntax 22}
CREATE INDEX i ON t(a+1){syntax 21}
CREATE INDEX i ON t(a) WHERE a{syntax 23}
CREATE INDEX sqlite_i ON t(a){syntax 13}
CREATE INDEX i ON t(a,b,c,d,e,f,g,h,i,j,k,l,m,n,o,p);{index t a b c d e f g h i j k l m n o p}
CREATE INDEX i ON t(a,b,c,d,e,f,g,h,i,j,k,l,m,n,o,p,q){syntax 51}
";

#[test]
fn statements(rt: HostRuntime) -> Result<(), Fail> {
    for table in [
        TRANSACTIONS,
        NOTHING_AND_OTHER_BYTES,
        CREATE_TABLE,
        INDEXES_AND_DROP,
        INSERT,
        UPDATE_AND_DELETE,
        SELECT,
        TABLES_OF_FROM,
        ORDER_BY_INTEGERS_AND_AGGREGATES,
        LEVELS,
        TERMS,
    ] {
        all_told(&rt, rt.alloc(), Kind::Statement, table)?;
    }
    Ok(())
}

#[test]
fn texts_of_objects(rt: HostRuntime) -> Result<(), Fail> {
    for table in [TEXTS_OF_TABLES, TEXTS_OF_INDEXES] {
        all_told(&rt, rt.alloc(), Kind::Object, table)?;
    }
    Ok(())
}
