mod objects;
mod rows;
mod seats;
mod storm;
mod waiting;
