/// The columns of a generated sheet.
#[derive(Clone, Copy, Drop)]
pub(crate) enum Column {
    /// The number that was drawn for the row.
    A,
    /// The sum of column A from its first row to this one, by one range.
    B,
    /// The same sum, from the row above.
    C,
    /// One of these two sums, by the number in A.
    D,
    /// The number in A times the one in A1.
    E,
    /// The sum of column A from this row to its last one.
    F,
    /// What is left of B where it is divided by 7.
    G,
}

impl Column {
    /// The columns, from left to right.
    pub(crate) const ALL: [Column; 7] = [
        Column::A,
        Column::B,
        Column::C,
        Column::D,
        Column::E,
        Column::F,
        Column::G,
    ];
}
