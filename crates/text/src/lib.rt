// Formulas as text: the reader and the writer.
#![tactic(auto)]

ghost use Rattle.std.specs.Prelude.{◌≡◌};
ghost use Rattle.paper_text.specs.Answers.{read_given, write_given};
ghost use Rattle.text.specs.Gives.{takes, gives};

use parse::Unread;
use table::Refusal;

// Reads a text and writes its records to the table, all or none. The answer: the records written.
pub fn read(limit: usize, text: &[u8], table: &mut [u8]) -> Result<usize, Refusal>
    ensures { takes result table.new ≡ read_given limit text.now table.old }
{
    if !table::is_limit(limit) {
        return Err(Refusal::Limit);
    }
    let records = match parse::weigh(text, limit) {
        Ok(records) => records,
        Err(Unread::NotWritten) => return Err(Refusal::NoText),
        Err(Unread::Heavy) => return Err(Refusal::Heavy),
    };
    if table.len() / record::SIZE < records {
        return Err(Refusal::Room);
    }
    parse::write(text, limit, table);
    Ok(records)
}

// Writes the text of a table, whole or not at all. The answer: the bytes written.
pub fn write(limit: usize, table: &[u8], text: &mut [u8]) -> Result<usize, Refusal>
    ensures { gives result text.new ≡ write_given limit table.now text.old }
{
    table::check(limit, table)?;
    let length = spell::measure(table);
    if text.len() < length {
        return Err(Refusal::Room);
    }
    spell::spell(table, 0, text, 0);
    Ok(length)
}
