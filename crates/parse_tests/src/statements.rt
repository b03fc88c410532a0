// Statements in short, so that a table of texts stays small. The notation stands at the top of `texts`.
use crate::note::Note;
use disk_face::Txt;
use sql_parse::{
    Affinity, Column, Created, Expr, Exprs, Function, Mode, Named, Op, ParseFault, Select, Set,
    Sort, Statement, Use,
};

/// No statement is deeper.
const MOST_DEEP: u32 = 200;

fn sign(op: Op) -> &'static [u8] {
    match op {
        Op::Or => b"|",
        Op::And => b"&",
        Op::Not => b"!",
        Op::Equal => b"=",
        Op::Unequal => b"<>",
        Op::IsNull => b"null ",
        Op::IsNotNull => b"some ",
        Op::Less => b"<",
        Op::AtMost => b"<=",
        Op::More => b">",
        Op::AtLeast => b">=",
        Op::Add | Op::Plus => b"+",
        Op::Sub | Op::Minus => b"-",
        Op::Mul => b"*",
        Op::Div => b"/",
        Op::Rem => b"%",
    }
}

fn aggregate(function: Function) -> &'static [u8] {
    match function {
        Function::Count => b"count ",
        Function::Sum => b"sum ",
        Function::Min => b"min ",
        Function::Max => b"max ",
    }
}

fn affinity(affinity: Affinity) -> &'static [u8] {
    match affinity {
        Affinity::Integer => b":i",
        Affinity::Text => b":t",
        Affinity::Blob => b":b",
    }
}

fn begin(mode: Mode) -> &'static [u8] {
    match mode {
        Mode::Plain => b"begin",
        Mode::Concurrent => b"concurrent",
    }
}

fn index(unique: bool) -> &'static [u8] {
    if unique { b"unique index " } else { b"index " }
}

fn state(state: Use) -> &'static [u8] {
    match state {
        Use::Usable => b"usable",
        Use::ReadOnly => b"read only",
        Use::Unusable => b"unusable",
    }
}

impl Note {
    fn quoted(&mut self, quote: &[u8], bytes: &[u8]) {
        self.put(quote);
        self.put(bytes);
        self.put(quote);
    }

    fn column(&mut self, table: &Option<Txt>, name: &Txt) {
        if let Some(table) = table {
            self.put(table.bytes());
            self.put(b".");
        }
        self.put(name.bytes());
    }

    /// An expression of at most this depth, each operator in brackets with its sides.
    fn expr(&mut self, depth: u32, value: &Expr) {
        if depth == 0 {
            return self.put(b"?");
        }
        match value {
            Expr::Null => self.put(b"null"),
            Expr::Int(n) => self.number(*n),
            Expr::Text(text) => self.quoted(b"'", text.bytes()),
            Expr::Blob(bytes) => self.quoted(b"`", bytes.bytes()),
            Expr::Column { table, name } => self.column(table, name),
            Expr::One(op, inner) => {
                self.put(b"(");
                self.put(sign(*op));
                self.expr(depth - 1, inner.get());
                self.put(b")");
            }
            Expr::Two(op, left, right) => {
                self.put(b"(");
                self.expr(depth - 1, left.get());
                self.put(sign(*op));
                self.expr(depth - 1, right.get());
                self.put(b")");
            }
            Expr::CountAll => self.put(b"count*"),
            Expr::Aggregate(function, inner) => {
                self.put(b"(");
                self.put(aggregate(*function));
                self.expr(depth - 1, inner.get());
                self.put(b")");
            }
        }
    }

    fn some_expr(&mut self, before: &[u8], value: &Option<Expr>) {
        if let Some(value) = value {
            self.put(before);
            self.expr(MOST_DEEP, value);
        }
    }

    fn exprs(&mut self, before: &[u8], values: &[Expr]) {
        for value in values {
            self.put(before);
            self.expr(MOST_DEEP, value);
        }
    }

    fn rows(&mut self, rows: &[Exprs]) {
        for row in rows {
            self.put(b" row");
            self.exprs(b" ", row.items());
        }
    }

    fn names(&mut self, names: &[Txt]) {
        for name in names {
            self.put(b" ");
            self.put(name.bytes());
        }
    }

    fn columns(&mut self, columns: &[Column]) {
        for column in columns {
            self.put(b" ");
            self.put(column.name.bytes());
            self.put(affinity(column.affinity));
            self.put(if column.is_rowid { b":key" } else { b"" });
            self.put(if column.not_null { b":some" } else { b"" });
        }
    }

    fn sets(&mut self, sets: &[Set]) {
        for set in sets {
            self.put(b" ");
            self.put(set.column.bytes());
            self.put(b":=");
            self.expr(MOST_DEEP, &set.value);
        }
    }

    fn tables(&mut self, tables: &[Named]) {
        for table in tables {
            self.put(b" from ");
            self.put(table.table.bytes());
            self.put(b"/");
            self.put(table.name.bytes());
        }
    }

    fn orders(&mut self, orders: &[Sort]) {
        for sort in orders {
            self.put(b" by ");
            self.expr(MOST_DEEP, &sort.value);
            self.put(if sort.falling { b" down" } else { b"" });
        }
    }

    fn limit(&mut self, before: &[u8], limit: Option<u64>) {
        if let Some(limit) = limit {
            self.count(before, limit);
        }
    }

    fn select(&mut self, select: &Select) {
        self.put(if select.all { b"select *" } else { b"select" });
        self.exprs(b" ", select.list.items());
        self.tables(select.from.as_slice());
        self.exprs(b" on ", select.on.items());
        self.some_expr(b" where ", &select.filter);
        self.exprs(b" group ", select.groups.items());
        self.orders(select.orders.as_slice());
        self.limit(b" limit ", select.limit);
        self.limit(b" offset ", select.offset);
    }

    fn named(&mut self, before: &[u8], name: &Txt) {
        self.put(before);
        self.put(name.bytes());
    }

    fn statement(&mut self, statement: &Statement) {
        match statement {
            Statement::Begin(mode) => self.put(begin(*mode)),
            Statement::Commit => self.put(b"commit"),
            Statement::Rollback => self.put(b"rollback"),
            Statement::CreateTable { name, columns } => {
                self.named(b"table ", name);
                self.columns(columns.as_slice());
            }
            Statement::CreateIndex {
                unique,
                name,
                table,
                columns,
            } => {
                self.named(index(*unique), name);
                self.named(b" ", table);
                self.names(columns.as_slice());
            }
            Statement::DropTable { name } => self.named(b"drop ", name),
            Statement::Insert {
                table,
                columns,
                rows,
            } => {
                self.named(b"insert ", table);
                self.names(columns.as_slice());
                self.rows(rows.as_slice());
            }
            Statement::Update {
                table,
                sets,
                filter,
            } => {
                self.named(b"update ", table);
                self.sets(sets.as_slice());
                self.some_expr(b" where ", filter);
            }
            Statement::Delete { table, filter } => {
                self.named(b"delete ", table);
                self.some_expr(b" where ", filter);
            }
            Statement::Select(found) => self.select(found),
        }
    }

    fn object(&mut self, created: &Created) {
        match created {
            Created::Table {
                state: found,
                columns,
            } => {
                self.put(state(*found));
                self.columns(columns.as_slice());
            }
            Created::Index {
                unique,
                table,
                columns,
            } => {
                self.named(index(*unique), table);
                self.names(columns.as_slice());
            }
        }
    }

    fn fault(&mut self, fault: ParseFault) {
        match fault {
            ParseFault::Syntax { at } => self.count(b"syntax ", u64::from(at)),
            ParseFault::Float { at } => self.count(b"float ", u64::from(at)),
            ParseFault::Memory => self.run_out(),
        }
    }

    /// What a text is as a statement.
    pub fn read(&mut self, found: Result<Statement, ParseFault>) {
        match found {
            Ok(found) => self.statement(&found),
            Err(fault) => self.fault(fault),
        }
    }

    /// What a text of a file's object says.
    pub fn read_object(&mut self, found: Result<Created, ParseFault>) {
        match found {
            Ok(found) => self.object(&found),
            Err(fault) => self.fault(fault),
        }
    }
}
