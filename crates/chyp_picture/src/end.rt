// Where lines begin and end.
/// Where a line begins or ends.
#[derive(Clone, Copy, Debug, PartialEq, Eq)]
pub enum End {
    /// An input, by its number from 0.
    Input(u32),
    /// An output, by its number from 0.
    Output(u32),
    /// A port of a box.
    Port {
        /// The number of the box, from 0.
        box_index: u32,
        /// The number of the port on its side of the box, from 0 at the top.
        port: u32,
    },
}
