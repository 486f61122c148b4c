//! The laws. The function does nothing: what it promises are the laws.

ghost use Rattle.qt_flat_measuring.specs.Laws.{MeasurementsLand, ResetsLand, SlotMeasurementsLand, TargetMeasurementsLand};

/// Wherever the code of a reset, or of a measurement that drops its outcomes or puts them into a whole slot or target, stands, it has both outcomes of
/// each qubit in order, with the same states, slots and trail, or ends in the fault of an index.
pub fn measurements()
    ensures resets { ResetsLand }
    ensures dropped { MeasurementsLand }
    ensures stored { SlotMeasurementsLand }
    ensures targets { TargetMeasurementsLand }
{}
