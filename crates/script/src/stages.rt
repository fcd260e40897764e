// How the stage of a runner and the progress of a split are told.
use crate::answer::AnswerText;
use protocol::table::{Progress, Split, Stage};
use std::fmt;

// The stage's name, then the page that the runner holds, the slot that it writes or has changed, and which step of the stage comes next.
// `runner` is the runner's number, from 1.
#[derive(Drop)]
pub(crate) struct StageText {
    pub(crate) runner: u8,
    pub(crate) stage: Stage,
}

impl fmt::Display for StageText {
    fn fmt<W: fmt::Write>(&self, f: &mut fmt::Formatter<W>) -> fmt::Result {
        match self.stage {
            Stage::Idle => write!(f, "idle"),
            Stage::Locating => write!(f, "locating"),
            Stage::WritingValue { page, slot } => write!(
                f,
                "writing page {page} slot {slot} step 1"
            ),
            Stage::WritingKey { page, slot } => write!(f, "writing page {page} slot {slot} step 2"),
            Stage::Committing { page, slot } => write!(f, "writing page {page} slot {slot} step 3"),
            Stage::Helping => write!(f, "helping"),
            Stage::Acting { page } => write!(f, "acting page {page}"),
            Stage::PendingNew { page, slot } => write!(f, "pending page {page} slot {slot} step 1"),
            Stage::PendingOld { page, slot, .. } => write!(
                f,
                "pending page {page} slot {slot} step 2"
            ),
            Stage::PendingSwap { page, slot, .. } => write!(
                f,
                "pending page {page} slot {slot} step 3"
            ),
            Stage::PendingRemove { page } => write!(f, "pending page {page} step 1"),
            Stage::Comparing { page, .. } => write!(f, "comparing page {page} step 1"),
            Stage::ComparingSwap { page, .. } => write!(f, "comparing page {page} step 2"),
            Stage::Reading { page } => write!(f, "reading page {page}"),
            Stage::Answered { answer, value } => {
                let told = AnswerText::of(u32::from(self.runner), answer, value).without_runner();
                write!(f, "answered {told}")
            }
        }
    }
}

// What the next step of a split is about. There are 8 keys and 2 header words to store for each new page.
#[derive(Drop)]
pub(crate) struct ProgressText(pub(crate) Split);

impl fmt::Display for ProgressText {
    fn fmt<W: fmt::Write>(&self, f: &mut fmt::Formatter<W>) -> fmt::Result {
        let (keys, words) = if self.0.right == 0 { (8, 2) } else { (16, 4) };
        match self.0.progress {
            Progress::Clearing { done } => write!(f, "copy clearing {done} of {keys}"),
            Progress::LeftNext => write!(f, "copy header 0 of {words}"),
            Progress::LeftLow => write!(f, "copy header 1 of {words}"),
            Progress::RightNext => write!(f, "copy header 2 of {words}"),
            Progress::RightLow => write!(f, "copy header 3 of {words}"),
            Progress::Copying { slot } => write!(f, "copy slot {slot} step 1"),
            Progress::CopyingValue { slot, .. } => write!(f, "copy slot {slot} step 2"),
            Progress::CopyingKey { slot, .. } => write!(f, "copy slot {slot} step 3"),
            Progress::Syncing { slot } => write!(f, "sync slot {slot} step 1"),
            Progress::SyncingNew { slot, .. } => write!(f, "sync slot {slot} step 2"),
            Progress::SyncingSwap { slot, .. } => write!(f, "sync slot {slot} step 3"),
            Progress::Linking => write!(f, "link not stored"),
            Progress::Finishing => write!(f, "link stored"),
        }
    }
}
