// A row of the list: a script, and the answer that is wanted.
use std::alloc::{AllocError, Global};

/// What a script has to be answered.
#[derive(Drop)]
pub struct Row {
    pub title: String,
    pub words: String,
    pub script: String,
    pub status: String,
    pub answer: String,
    pub in_table: bool,
}

/// The columns that many expressions share, with the expression and the plan that stand last.
#[derive(Drop)]
struct Table {
    title: String,
    columns: String,
    expression: String,
    plan: String,
}

/// A line of the list.
#[derive(Drop)]
enum Line<'a> {
    Title(&'a str),
    Table(&'a str),
    Script(&'a str),
    Expression(&'a str),
    Answer(&'a str),
    Wanted(&'a str),
    Found(&'a str),
    Denied(&'a str),
    Plain(&'a str),
    Blank,
}

fn line_of(line: &str) -> Line<'_> {
    if let Some(title) = line.strip_prefix("# ") {
        return Line::Title(title);
    }
    if let Some(title) = line.strip_prefix("## ") {
        return Line::Table(title);
    }
    if let Some(expression) = line.strip_prefix("? ") {
        return Line::Expression(expression);
    }
    if let Some(answer) = line.strip_prefix("= ") {
        return Line::Wanted(answer);
    }
    if let Some(plan) = line.strip_prefix(": ") {
        return Line::Found(plan);
    }
    if let Some(plan) = line.strip_prefix("! ") {
        return Line::Denied(plan);
    }
    if let Some(script) = line.strip_prefix("> ") {
        return Line::Script(script);
    }
    if let Some(answer) = line.strip_prefix("< ") {
        return Line::Answer(answer);
    }
    match line {
        "" => Line::Blank,
        ">" => Line::Script(""),
        _ => Line::Plain(line),
    }
}

impl Row {
    fn new(alloc: Global) -> Row {
        Row {
            title: String::new(alloc),
            words: String::new(alloc),
            script: String::new(alloc),
            status: String::new(alloc),
            answer: String::new(alloc),
            in_table: false,
        }
    }

    fn add(&mut self, line: Line<'_>) -> Result<(), AllocError> {
        match line {
            Line::Script(script) => push_script(&mut self.script, script),
            Line::Answer(answer) => push_answer(&mut self.answer, answer),
            Line::Plain(word) if self.words.is_empty() => self.words.push_str(word),
            Line::Plain(word) => self.status.push_str(word),
            _ => Ok(()),
        }
    }
}

impl Table {
    fn new(alloc: Global, title: &str) -> Result<Table, AllocError> {
        Ok(Table {
            title: String::from_str(alloc, title)?,
            columns: String::new(alloc),
            expression: String::new(alloc),
            plan: String::new(alloc),
        })
    }

    fn set_expression(&mut self, alloc: Global, line: &str) -> Result<(), AllocError> {
        self.expression = String::from_str(alloc, line)?;
        Ok(())
    }

    /// What a command has to do with the last expression under a plan, without its answer.
    fn row(&self, alloc: Global, words: &str, plan: &str, status: &str) -> Result<Row, AllocError> {
        let mut row = Row::new(alloc);
        row.in_table = true;
        row.title.push_str(self.title.as_str())?;
        row.title.push_str(", ")?;
        row.title.push_str(self.expression.as_str())?;
        row.words.push_str(words)?;
        row.script.push_str(self.columns.as_str())?;
        push_plan(&mut row.script, plan)?;
        row.script.push_str("expr ")?;
        push_script(&mut row.script, self.expression.as_str())?;
        row.status.push_str(status)?;
        Ok(row)
    }

    /// The row that evaluates the last expression.
    fn push_value(
        &self,
        alloc: Global,
        rows: &mut Vec<Row>,
        answer: &str,
    ) -> Result<(), AllocError> {
        let mut row = self.row(alloc, "eval", "", status_of(answer))?;
        push_answer(&mut row.answer, answer)?;
        rows.push(row)?;
        Ok(())
    }

    /// The row that checks a plan of the last expression.
    fn verdict(&self, alloc: Global, plan: &str, answer: &str) -> Result<Row, AllocError> {
        let mut row = self.row(alloc, "check", plan, "done")?;
        push_answer(&mut row.answer, answer)?;
        Ok(row)
    }

    /// The rows of the plan that is found for the last expression, which holds.
    fn push_found(
        &mut self,
        alloc: Global,
        rows: &mut Vec<Row>,
        plan: &str,
    ) -> Result<(), AllocError> {
        self.plan = String::from_str(alloc, plan)?;
        let mut row = self.row(alloc, "plan", "", "done")?;
        push_plan(&mut row.answer, plan)?;
        rows.push(row)?;
        rows.push(self.verdict(alloc, plan, "yes")?)?;
        Ok(())
    }

    /// The rows that check the last plan with each of these entries in it.
    fn push_denied(
        &self,
        alloc: Global,
        rows: &mut Vec<Row>,
        entries: &str,
    ) -> Result<(), AllocError> {
        for entry in entries.split(" / ") {
            let mut plan = String::from_str(alloc, self.plan.as_str())?;
            plan.push_str(" / ")?;
            plan.push_str(entry)?;
            rows.push(self.verdict(alloc, plan.as_str(), "no")?)?;
        }
        Ok(())
    }

    /// Takes a line of the table, and adds the rows that it makes.
    fn add(
        &mut self,
        alloc: Global,
        rows: &mut Vec<Row>,
        line: Line<'_>,
    ) -> Result<(), AllocError> {
        match line {
            Line::Script(line) => push_script(&mut self.columns, line),
            Line::Expression(line) => self.set_expression(alloc, line),
            Line::Wanted(answer) => self.push_value(alloc, rows, answer),
            Line::Found(plan) => self.push_found(alloc, rows, plan),
            Line::Denied(entries) => self.push_denied(alloc, rows, entries),
            _ => Ok(()),
        }
    }
}

/// The status that a table's answer has.
fn status_of(answer: &str) -> &'static str {
    if answer.starts_with("refused ") {
        "refused"
    } else if answer.starts_with("bad line ") {
        "bad script"
    } else {
        "done"
    }
}

/// A line of a script: `\t` is a tab, `\r` a carriage return, and `\c` at the end leaves the line
/// feed out.
fn push_script(script: &mut String, line: &str) -> Result<(), AllocError> {
    let mut pieces = line.split('\\');
    if let Some(first) = pieces.next() {
        script.push_str(first)?;
    }
    let mut ends = true;
    for piece in pieces {
        if piece == "c" {
            ends = false;
        } else if let Some(rest) = piece.strip_prefix("t") {
            script.push('\t')?;
            script.push_str(rest)?;
        } else if let Some(rest) = piece.strip_prefix("r") {
            script.push('\r')?;
            script.push_str(rest)?;
        } else {
            script.push_str(piece)?;
        }
    }
    if ends { script.push('\n') } else { Ok(()) }
}

/// The lines of an answer, which stand behind one another with ` / ` between them.
fn push_answer(answer: &mut String, line: &str) -> Result<(), AllocError> {
    for piece in line.split(" / ") {
        answer.push_str(piece)?;
        answer.push('\n')?;
    }
    Ok(())
}

/// The lines of a plan, whose entries stand behind one another with ` / ` between them.
fn push_plan(script: &mut String, plan: &str) -> Result<(), AllocError> {
    for entry in plan.split(" / ") {
        if !entry.is_empty() {
            script.push_str("plan ")?;
            script.push_str(entry)?;
            script.push('\n')?;
        }
    }
    Ok(())
}

fn titled(alloc: Global, title: &str) -> Result<Row, AllocError> {
    let mut row = Row::new(alloc);
    row.title.push_str(title)?;
    Ok(row)
}

/// The rows of the list, each of which begins with its title, and those of its tables, each of which
/// begins with a title of its own.
pub fn rows_of(alloc: Global, list: &str) -> Result<Vec<Row>, AllocError> {
    let mut rows: Vec<Row> = Vec::new(alloc);
    let mut table: Option<Table> = None;
    for text in list.lines() {
        match (line_of(text), &mut table) {
            (Line::Title(title), _) => {
                table = None;
                rows.push(titled(alloc, title)?)?;
            }
            (Line::Table(title), _) => table = Some(Table::new(alloc, title)?),
            (line, Some(table)) => table.add(alloc, &mut rows, line)?,
            (line, None) => {
                if let Some(row) = rows.last_mut() {
                    row.add(line)?;
                }
            }
        }
    }
    Ok(rows)
}
