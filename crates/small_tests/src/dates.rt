mod berlin;
mod days;
mod terms;
