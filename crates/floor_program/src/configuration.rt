//! The text of a configuration, as a control client sends it.

use floor_config::{Config, read_configs};
use floor_diagnosis::line_of_fault;
use floor_service::{ConfigFault, Configured, Words, titles_of};
use std::alloc::Global;

/// What a text is as a configuration.
pub fn read_configuration(alloc: Global, text: &str) -> Configured {
    match read_configs(alloc, text) {
        Ok(mut configs) => match configs.pop() {
            Some(config) if configs.is_empty() => with_titles(alloc, text, config),
            _ => Configured::Unfit,
        },
        Err(ConfigFault::Memory) => Configured::Memory,
        Err(fault) => faulty(alloc, text, fault),
    }
}

/// Why a text is no configuration, and at which line.
fn faulty(alloc: Global, text: &str, fault: ConfigFault) -> Configured {
    match line_of_fault(alloc, text) {
        Ok(line) => Configured::Faulty {
            fault,
            line: line.map_or(1, |line| line as u64),
        },
        Err(_) => Configured::Memory,
    }
}

/// The conference of a text, with the titles that it gives.
fn with_titles(alloc: Global, text: &str, config: Config) -> Configured {
    match titles_of(alloc, text) {
        Ok(Some(mut titles)) => Configured::One {
            config,
            titles: titles.pop().unwrap_or(Words::new(alloc)),
        },
        Ok(None) => Configured::Unfit,
        Err(_) => Configured::Memory,
    }
}
