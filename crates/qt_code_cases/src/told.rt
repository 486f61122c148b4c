use qt_code::code::Code;
use qt_code::parts::Parts;
use qt_rows::answer::Answer;

fn tell_start(code: &Code, answer: &mut Answer) {
    answer.push_str(" start");
    for value in code.start() {
        write!(answer, " {value}");
    }
}

fn tell_layout(code: &Code, answer: &mut Answer) {
    answer.push_str(" told");
    for field in code.layout() {
        let (name, slot) = (field.name.text(), field.slot);
        write!(answer, " {name}:{slot}");
    }
}

pub fn tell_code(code: &Code, answer: &mut Answer) {
    let (instructions, places) = (code.instructions().len(), code.places().len());
    let (qubits, slots, cells) = (code.qubits(), code.slots(), code.cells());
    let line = code.end().line;
    write!(
        answer,
        "ok instructions {instructions} places {places} qubits {qubits} slots {slots} cells {cells} end {line}"
    );
    tell_start(code, answer);
    tell_layout(code, answer);
}

pub fn tell_back(parts: &Parts, answer: &mut Answer) {
    let (instructions, qubits) = (parts.instructions.items().len(), parts.qubits);
    write!(answer, "back instructions {instructions} qubits {qubits}");
}
