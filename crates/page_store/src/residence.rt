/// Where a page is: home in this frame, away with the flight of this seat, or in no frame.
#[derive(Clone, Copy, PartialEq, Eq, Debug)]
pub enum Residence {
    Home(u32),
    Moving(u32),
    Absent,
}
