//! What a configuration's file calls its conferences and floors. The server ignores it.

use std::alloc::{AllocError, AllocFailed, Global};
use toml::Value;

/// A title of a conference, or of one of its floors.
#[derive(Debug, Drop)]
struct Title {
    conference: i64,
    floor: Option<i64>,
    text: String,
}

/// The titles of a configuration's file.
#[derive(Debug, Drop)]
pub struct Titles {
    titles: Vec<Title>,
}

impl Titles {
    /// None.
    pub fn new(alloc: Global) -> Titles {
        Titles {
            titles: Vec::new(alloc),
        }
    }

    /// The title of a conference, or of one of its floors; empty where there is none.
    pub fn find(&self, conference: u32, floor: Option<u16>) -> &str {
        let conference = i64::from(conference);
        let floor = match floor {
            Some(floor) => Some(i64::from(floor)),
            None => None,
        };
        match self.titles.iter().find(|title| title.conference == conference
            && title.floor == floor)
        {
            Some(title) => title.text.as_str(),
            None => "",
        }
    }

    /// Adds the title of a table, where it has one.
    fn add(
        &mut self,
        table: &Value,
        conference: i64,
        floor: Option<i64>,
    ) -> Result<(), AllocError> {
        let Some(text) = table.get("title").and_then(Value::as_str) else {
            return Ok(());
        };
        let alloc = *self.titles.allocator();
        let text = String::from_str(alloc, text)?;
        let title = Title {
            conference,
            floor,
            text,
        };
        match self.titles.push(title) {
            Ok(()) => Ok(()),
            Err(AllocFailed { value: _ }) => Err(AllocError),
        }
    }
}

/// The titles in a configuration's text; none where it can't be read.
pub fn read_titles(alloc: Global, text: &str) -> Result<Titles, AllocError> {
    let mut titles = Titles::new(alloc);
    let table = match toml::table_from_str(alloc, text) {
        Ok(table) => table,
        Err(error) if error.is_memory() => return Err(AllocError),
        Err(_) => return Ok(titles),
    };
    for conference in tables_of(table.get("conference")) {
        let id = id_of(conference);
        titles.add(conference, id, None)?;
        for floor in tables_of(conference.get("floor")) {
            titles.add(floor, id, Some(id_of(floor)))?;
        }
    }
    Ok(titles)
}

fn tables_of(value: Option<&Value>) -> &[Value] {
    match value.and_then(Value::as_array) {
        Some(array) => array.as_slice(),
        None => &[],
    }
}

/// The number of a table; one that nothing has where there is none.
fn id_of(table: &Value) -> i64 {
    match table.get("id").and_then(Value::as_integer) {
        Some(id) => id,
        None => -1,
    }
}
