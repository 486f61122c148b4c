//! What is written as a tree, and what all trees have.

use qt_rows::answer::Answer;
use qt_tree::label::Label;
use qt_tree::place::Place;

/// What is written as a tree.
pub trait Tree {
    /// Writes it behind what stands in the answer.
    fn write(&self, answer: &mut Answer);
}

impl Tree for Label {
    fn write(&self, answer: &mut Answer) {
        answer.push_str(" ");
        answer.push_str(self.text());
    }
}

/// Writes the beginning of a tree, and behind it a name.
pub fn write_named(beginning: &str, name: &Label, answer: &mut Answer) {
    answer.push_str(beginning);
    name.write(answer);
}

/// Writes the number of a text, a line and a column.
pub fn write_place(place: Place, answer: &mut Answer) {
    let Place { file, line, column } = place;
    write!(answer, " {file}:{line}:{column}");
}

/// Writes the beginning of a tree, and behind it a place.
pub fn write_placed(beginning: &str, place: Place, answer: &mut Answer) {
    answer.push_str(beginning);
    write_place(place, answer);
}

/// Writes the members of a list.
pub fn write_list<T: Tree>(members: &[T], answer: &mut Answer) {
    answer.push_str(" [");
    for member in members {
        member.write(answer);
    }
    answer.push_str(" ]");
}

/// Writes a part that may be missing.
pub fn write_part<T: Tree>(part: &Option<T>, answer: &mut Answer) {
    match part {
        Some(part) => part.write(answer),
        None => answer.push_str(" none"),
    }
}
