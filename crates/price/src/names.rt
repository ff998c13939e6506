// How many rules there are. This belongs in fault_row.

pub(crate) const RULES: usize = 18;
