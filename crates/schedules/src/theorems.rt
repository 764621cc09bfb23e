//! What schedules are to forms.

ghost use Rattle.schedules.specs.Theorems.{SchedulesStand};

/// Computes nothing: its contract says that the lawful schedules are the forms, and that none is lighter than a letter's form.
pub fn schedules_stand() -> u8
    ensures { SchedulesStand }
{
    0
}
