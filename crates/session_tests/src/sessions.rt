// Sessions whose store is read: after each line the cells that aren't released are those of the held names.

mod cells;
mod draws;
mod lines;
mod talks;
mod values;
