//! Rows held by column.
#![tactic(auto)]

mod cell_order;
mod column_values;
mod row_ref;
mod rows;
mod rows_builder;
mod texts;
mod value_bytes;
mod value_ref;

pub use column_values::ColumnValues;
pub use row_ref::RowRef;
pub use rows::Rows;
pub use rows_builder::RowsBuilder;
pub use texts::Texts;
pub use value_bytes::put_value_ref;
pub use value_ref::ValueRef;
