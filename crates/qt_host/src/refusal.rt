//! Why there is no answer.

use qt_tree::label::Label;
use qt_tree::refusal::TextRefusal;

/// Why a text has no answer.
#[derive(Debug, Drop)]
pub enum HostRefusal {
    /// The shelf failed to give the text of that name.
    Shelf(Label),
    /// The text is refused. It is never so for want of memory.
    Text(TextRefusal),
    /// The text of that name is that of a program, but of none that is served yet.
    Early(Label),
    /// No memory was left.
    OutOfMemory,
}
