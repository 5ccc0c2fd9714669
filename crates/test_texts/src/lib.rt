//! Tests of what is read and of what is written: numbers, tokens, the texts of parts and what a line says of them; lines, tables and flaws of jobs, and jobs as texts;
//! where views stand on a sheet, strokes and their paths, dashes, pages, and plotters.
#![tactic(auto)]

#[cfg(test)]
mod flaw_texts;
#[cfg(test)]
mod job_lines;
#[cfg(test)]
mod jobs_for_sheets;
#[cfg(test)]
mod numbers;
#[cfg(test)]
mod pages;
#[cfg(test)]
mod part_texts;
#[cfg(test)]
mod paths;
#[cfg(test)]
mod places;
#[cfg(test)]
mod plain_jobs;
#[cfg(test)]
mod plotters;
#[cfg(test)]
mod readers;
#[cfg(test)]
mod sheets;
#[cfg(test)]
mod stretches;
#[cfg(test)]
mod tables_of_jobs;
#[cfg(test)]
mod tokens;
#[cfg(test)]
mod views;
