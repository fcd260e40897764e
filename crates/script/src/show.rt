// The state of a book, for a person: its table, line by line.
use crate::key_text::{KeyText, KeyWord, key_word};
use crate::pages::Pages;
use crate::stages::{ProgressText, StageText};
use protocol::table::{Activity, PageRow, Runner, Split, Table};
use std::fmt;
use std::marker::PhantomData;
use values::value_word::value_of;

// How many slots are taken, and which are committed.
#[derive(Drop)]
struct SlotsText(PageRow);

impl fmt::Display for SlotsText {
    fn fmt<W: fmt::Write>(&self, f: &mut fmt::Formatter<W>) -> fmt::Result {
        let row = self.0;
        write!(f, "taken {}, committed", row.taken)?;
        for slot in (0..8).filter(|slot| row.is_committed(*slot)) {
            write!(f, " {slot}")?;
        }
        if row.committed == 0 {
            write!(f, " none")?;
        }
        Ok(())
    }
}

// `key` is the split's, as the kind shows it.
#[derive(Drop)]
struct SplitText<P> {
    split: Split,
    key: KeyWord<P>,
}

impl<P: fmt::Display> fmt::Display for SplitText<P> {
    fn fmt<W: fmt::Write>(&self, f: &mut fmt::Formatter<W>) -> fmt::Result {
        let split = self.split;
        write!(f, "page {} into {}", split.old, split.left)?;
        if split.right != 0 {
            write!(f, " and {}", split.right)?;
        }
        write!(f, " at {}, {}", self.key, ProgressText(split))
    }
}

// What a runner was asked for, and where it stands. `number` is the runner's, from 1, and `key` its key as the kind shows it.
#[derive(Drop)]
struct RunnerText<P> {
    number: u8,
    runner: Runner,
    key: KeyWord<P>,
}

impl<P: fmt::Display> fmt::Display for RunnerText<P> {
    fn fmt<W: fmt::Write>(&self, f: &mut fmt::Formatter<W>) -> fmt::Result {
        let runner = self.runner;
        if runner.stage.activity() == Activity::Open {
            write!(f, "{} {} ", runner.operation, self.key)?;
            if runner.operation.draws() {
                write!(f, "{} ", value_of(runner.word))?;
            }
        }
        let stage = StageText {
            runner: self.number,
            stage: runner.stage,
        };
        write!(f, "{stage}")
    }
}

// The table under a kind of keys.
#[derive(Drop)]
pub(crate) struct TableText<K> {
    table: Table,
    kind: PhantomData<K>,
}

impl<K: KeyText> TableText<K> {
    pub(crate) fn of(table: Table) -> TableText<K> {
        TableText {
            table,
            kind: PhantomData,
        }
    }

    fn write_pages<W: fmt::Write>(&self, f: &mut fmt::Formatter<W>) -> fmt::Result {
        for page in Pages::of(&self.table) {
            writeln!(f, "  page {page}: {}", SlotsText(self.table.page_at(page)))?;
        }
        Ok(())
    }

    fn write_split<W: fmt::Write>(&self, f: &mut fmt::Formatter<W>) -> fmt::Result {
        match self.table.split {
            Some(split) => {
                let key = key_word::<K>(split.key);
                writeln!(f, "  split: {}", SplitText { split, key })
            }
            None => writeln!(f, "  no split"),
        }
    }

    fn write_runners<W: fmt::Write>(&self, f: &mut fmt::Formatter<W>) -> fmt::Result {
        for (number, runner) in (1..=self.table.count).zip(self.table.runners) {
            let key = key_word::<K>(runner.key);
            writeln!(
                f,
                "  runner {number}: {}",
                RunnerText {
                    number,
                    runner,
                    key
                }
            )?;
        }
        Ok(())
    }
}

impl<K: KeyText> fmt::Display for TableText<K> {
    fn fmt<W: fmt::Write>(&self, f: &mut fmt::Formatter<W>) -> fmt::Result {
        let table = &self.table;
        if !table.opened {
            return writeln!(f, "  closed");
        }
        writeln!(
            f,
            "  open: runners {}, round at page {}, last number {}",
            table.count, table.round, table.last
        )?;
        self.write_pages(f)?;
        self.write_split(f)?;
        self.write_runners(f)
    }
}
