mod borders;
mod merges;
mod pairs;
mod records;
