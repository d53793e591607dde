// A road and its rows, read from a file of the program's own commands: `road` first, and then `straight` and `curve`.
use anyhow::{anyhow, bail};
use commands::parse::parse;
use commands::{Command, MOST_WORDS, SheetCommand};
use plain::NewRow;
use road::Road;
use std::fs;
use text::words_of;

#[derive(Drop)]
pub(crate) struct Alignment {
    pub(crate) road: Road,
    pub(crate) rows: Vec<NewRow>,
}

pub(crate) fn read_rows(rt: &HostRuntime, file: &str) -> anyhow::Result<Alignment> {
    let text = fs::read_to_string(rt, file)?;
    let mut road = None;
    let mut rows = Vec::new(rt.alloc());
    for line in text.as_str().lines() {
        let mut words = [""; MOST_WORDS];
        let count = words_of(line, &mut words);
        match parse(&words[..count]) {
            Ok(None) => {}
            Ok(Some(Command::Road(design))) => road = Some(Road::open(design)?),
            Ok(Some(Command::Sheet(SheetCommand::Add { row, before: None }))) => rows.push(row)?,
            _ => bail!("a line is no road and no row to be added at the end"),
        }
    }
    let Some(road) = road else {
        return Err(anyhow!("the file has no road"));
    };
    Ok(Alignment { road, rows })
}
